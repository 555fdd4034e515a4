// The questions, read in chunks of any length.
ghost use Rattle.std.specs.Prelude.{◌≡◌, ◌+◌, ◌-◌, ◌*◌, ◌<◌, ◌≤◌, List, ℕ, [], length, take, IfOk, IfSome, OnErr};
ghost use Rattle.std.specs.Io.KnownBytes.{Appends, Consumes, IsAtEnd};
ghost use Rattle.formats.specs.Inputs.{inputs_of};
ghost use Rattle.whatif.specs.Cleared.{Cleared};
ghost use Rattle.whatif.specs.Stream.{question_line, lines_by, Buffered, Keeps, Advances};
ghost use Rattle.whatif.specs.Told.{AppendsFront, Says};
ghost use Rattle.whatif.specs.Turns.{Progress};

use crate::chunk::take_in;
use crate::input::{asked_space, chunk_space, lines_space, read_some};
use crate::send::send_lines;
use session::state::Session;
use std::io;
use std::io::{Read, Write};

// The progress of the questions after a read: how many bytes came with it, how many the lines that they completed have,
// how many came of the question that is not yet whole, how many are still to come, and how many were written in all.
#[derive(Clone, Copy)]
pub struct Turn {
    pub came: usize,
    pub end: usize,
    pub have: usize,
    pub left: usize,
    pub sent: usize,
}

// Reads once, and writes the lines of the questions that became whole. No byte comes where the input ended. `before` is
// a copy of what `asked` holds.
fn some_questions<R: Read, W: Write>(
    input: &mut R,
    output: &mut W,
    loaded: Session,
    plan: &[u8],
    rules: &[u8],
    node_table: &[u16],
    state_table: &[u8],
    before: &[u8],
    asked: &mut [u8],
    last: Turn,
    chunk: &mut [u8],
    out: &mut [u8],
) -> io::Result<Turn>
    requires keeps { Keeps asked.old last.have }
    requires before_value { before.now ≡ asked.old }
    requires left_bound { last.have + last.left ≤ 4294967295 }
    requires left_bound_2 { last.sent + 48 * last.left ≤ 206158430160 }
    requires chunk_in_bounds { 48 * length chunk.old ≤ length out.old }
    requires cleared { Cleared loaded (inputs_of plan.now rules.now node_table.now state_table.now) }
    ensures advances { IfOk result (λ t. Advances (question_line plan.now rules.now)
        (take t.came chunk.new) asked.old last.have asked.new t.have
        out.old 0 out.new t.end) }
    ensures came_in_bounds { IfOk result (λ t. (t.came ≤ length chunk.new) × (length chunk.new ≡ length chunk.old)) }
    ensures came_value { IfOk result (λ t. (t.left + t.came ≡ last.left) × (t.sent ≡ last.sent + t.end)) }
    ensures have_bound { IfOk result (λ t. (t.have ≤ last.have + t.came) × (t.end ≤ 48 * t.came)) }
    ensures taken { IfOk result (λ t. Consumes (R.remaining input.old) (R.remaining input.new) (take t.came chunk.new)) }
    ensures ended { IfOk result (λ t. t.came ≡ 0 → 0 < last.left → 0 < length chunk.old → IsAtEnd (R.remaining input.new)) }
    ensures written { IfOk result (λ t. Appends (W.contents output.old) (W.contents output.new) (take t.end out.new)) }
    ensures failed { OnErr result ((q : List ℕ) → Buffered q asked.old last.have → IfSome (R.remaining input.old)
        (λ w. AppendsFront (W.contents output.old) (W.contents output.new)
        (lines_by (question_line plan.now rules.now) q (take last.left w)))) }
{
    let n = read_some(input, last.left, chunk)?;
    let taken = take_in(
        loaded,
        plan,
        rules,
        node_table,
        state_table,
        &chunk[..n],
        asked,
        last.have,
        out,
    );
    let end = taken.end;
    let sent = send_lines(
        output,
        plan,
        rules,
        &chunk[..n],
        before,
        last.have,
        asked,
        taken.have,
        &out[..end],
    )?;
    Ok(Turn {
        came: n,
        end,
        have: taken.have,
        left: last.left - n,
        sent: last.sent + sent,
    })
}

// Answers the questions until the stated bytes are read or no more come.
pub fn put_questions<R: Read, W: Write>(
    input: &mut R,
    output: &mut W,
    loaded: Session,
    plan: &[u8],
    rules: &[u8],
    node_table: &[u16],
    state_table: &[u8],
    stated: usize,
) -> io::Result<Turn>
    requires stated_bound { stated ≤ 4294967295 }
    requires cleared { Cleared loaded (inputs_of plan.now rules.now node_table.now state_table.now) }
    ensures left_le_stated { IfOk result (λ t. t.left ≤ stated) }
    ensures progress { IfOk result (λ t. Progress (question_line plan.now rules.now) (stated - t.left) t.have t.sent) }
    ensures left_value { IfOk result (λ t. (t.came ≡ 0 → ⊥) → t.left ≡ 0) }
    ensures says { Says (R.remaining input.old) result (W.contents output.old) (W.contents output.new)
        (λ w. lines_by (question_line plan.now rules.now) [] (take stated w)) }
{
    let mut asked = asked_space();
    let mut chunk = chunk_space();
    let mut out = lines_space();
    let mut turn = Turn {
        came: 0,
        end: 0,
        have: 0,
        left: stated,
        sent: 0,
    };
    while turn.left > 0 {
        let before = asked;
        turn = some_questions(
            input,
            output,
            loaded,
            plan,
            rules,
            node_table,
            state_table,
            &before,
            &mut asked,
            turn,
            &mut chunk,
            &mut out,
        )?;
        if turn.came == 0 {
            return Ok(turn);
        }
    }
    Ok(turn)
}
