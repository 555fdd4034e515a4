// The lines of the questions that a chunk of the input completes.
ghost use Rattle.std.specs.Prelude.{◌≡◌, [], ◌∷◌, ◌+◌, ◌*◌, ◌≤◌, length};
ghost use Rattle.formats.specs.Inputs.{inputs_of};
ghost use Rattle.whatif.specs.Cleared.{Cleared};
ghost use Rattle.whatif.specs.Text.{Put};
ghost use Rattle.whatif.specs.Stream.{line_as_kept, question_line, Keeps, Advances};

use crate::ask::ask;
use crate::line::put_line;
use crate::question::{keep, kept_changes, labels_in, nodes_in, question_length};
use session::state::Session;

// How many bytes of the question that is not yet whole came, and where the text of the lines ends.
#[derive(Clone, Copy)]
pub struct Taken {
    pub have: usize,
    pub end: usize,
}

// Appends the line of a whole question.
fn put_answer(
    loaded: Session,
    plan: &[u8],
    rules: &[u8],
    node_table: &[u16],
    state_table: &[u8],
    asked: &[u8],
    out: &mut [u8],
    end: usize,
) -> usize
    requires asked_len { length asked.now ≡ 197 }
    requires end_in_bounds { end + 48 ≤ length out.old }
    requires cleared { Cleared loaded (inputs_of plan.now rules.now node_table.now state_table.now) }
    ensures put { Put out.old end
        (line_as_kept plan.now rules.now asked.now)
        out.new result }
    ensures upper_bound { result ≤ end + 48 }
{
    let k = kept_changes(asked);
    let last = 2 + 3 * k;
    let nodes = nodes_in(&asked[2..last]);
    let labels = labels_in(&asked[2..last]);
    let answer = ask(
        loaded,
        plan,
        rules,
        node_table,
        state_table,
        &nodes[..k],
        &labels[..k],
    );
    put_line(out, end, answer)
}

// One more byte of the questions; a line if it completes one.
fn take_byte(
    loaded: Session,
    plan: &[u8],
    rules: &[u8],
    node_table: &[u16],
    state_table: &[u8],
    b: u8,
    asked: &mut [u8],
    have: usize,
    out: &mut [u8],
    end: usize,
) -> Taken
    requires keeps { Keeps asked.old have }
    requires end_in_bounds { end + 48 ≤ length out.old }
    requires have_bound { have ≤ 4294967295 }
    requires cleared { Cleared loaded (inputs_of plan.now rules.now node_table.now state_table.now) }
    ensures advances { Advances (question_line plan.now rules.now)
        (b ∷ []) asked.old have asked.new result.have out.old end out.new result.end }
    ensures end_bound { (result.end ≤ end + 48) × (result.have ≤ have + 1) }
{
    keep(asked, have, b);
    let more = have + 1;
    if more != question_length(asked) {
        return Taken { have: more, end };
    }
    let next = put_answer(
        loaded,
        plan,
        rules,
        node_table,
        state_table,
        asked,
        out,
        end,
    );
    Taken { have: 0, end: next }
}

// The bytes of a chunk, one after the other.
pub fn take_in(
    loaded: Session,
    plan: &[u8],
    rules: &[u8],
    node_table: &[u16],
    state_table: &[u8],
    chunk: &[u8],
    asked: &mut [u8],
    have: usize,
    out: &mut [u8],
) -> Taken
    requires keeps { Keeps asked.old have }
    requires chunk_bound { have + length chunk.now ≤ 4294967295 }
    requires chunk_in_bounds { 48 * length chunk.now ≤ length out.old }
    requires cleared { Cleared loaded (inputs_of plan.now rules.now node_table.now state_table.now) }
    ensures advances { Advances (question_line plan.now rules.now)
        chunk.now asked.old have asked.new result.have out.old 0 out.new result.end }
    ensures end_bound { (result.end ≤ 48 * length chunk.now) × (result.have ≤ have + length chunk.now) }
{
    let mut part = have;
    let mut end = 0;
    for b in chunk {
        let next = take_byte(
            loaded,
            plan,
            rules,
            node_table,
            state_table,
            *b,
            asked,
            part,
            out,
            end,
        );
        part = next.have;
        end = next.end;
    }
    Taken { have: part, end }
}
