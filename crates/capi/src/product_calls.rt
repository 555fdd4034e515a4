// The exported calls on two rule tables (document 02, S-6 and S-13), each thin over a call of the crates below: its
// result is the answer's number, 0 where it is accepted. Outputs are written only on success.
//     whatif_merge   one table that clears exactly the plans that both clear
//     whatif_agree   whether the tables agree, or else a separating plan as lines
ghost use Rattle.std.specs.Prelude.{◌≡◌, [], ◌∷◌, cond, eqb};
ghost use Rattle.products.specs.merging.Writes.{written};
ghost use Rattle.capi.specs.product_calls.Exported.{MergeExported, AgreeExported, LineArgs, LinesArgs, line_numbers};

use crate::numbers::number;
use formats::refusals::Refusal;
use products::agreement::agree;
use products::agreement::reachable::PAIR_LIMIT;
use products::merging::merge;

// Writes the merged table to `merged`.
pub fn whatif_merge(first: &[u8], second: &[u8], merged: &mut [u8]) -> u32
    ensures { MergeExported first.now second.now merged.old result merged.new }
{
    let answer = merge(first, second, merged);
    number(answer)
}

// The four numbers of a line, from number `at` on.
fn put_line(lines: &mut [u16], at: usize, kind: u8, label: u8, left: u8, right: u8)
    requires { LineArgs at lines.old }
    ensures { lines.new ≡ written at (kind ∷ label ∷ left ∷ right ∷ []) lines.old }
{
    lines[at] = kind as u16;
    lines[at + 1] = label as u16;
    lines[at + 2] = left as u16;
    lines[at + 3] = right as u16;
}

// The first n lines of a reply.
fn put_lines(
    kinds: [u8; PAIR_LIMIT],
    labels: [u8; PAIR_LIMIT],
    lefts: [u8; PAIR_LIMIT],
    rights: [u8; PAIR_LIMIT],
    n: usize,
    lines: &mut [u16],
)
    requires { LinesArgs kinds labels lefts rights n lines.old }
    ensures { lines.new ≡ written 0 (line_numbers kinds labels lefts rights n) lines.old }
{
    for i in 0..n {
        put_line(lines, i * 4, kinds[i], labels[i], lefts[i], rights[i]);
    }
}

// 1 where no line is shown.
fn none_shown(n: usize) -> u32
    ensures { result ≡ cond (eqb n 0) 1 0 }
{
    u32::from(n == 0)
}

// Whether two tables agree goes to `agreed`; where they do not, the lines of a separating plan go to `lines` and their
// number to `count`.
pub fn whatif_agree(
    first: &[u8],
    second: &[u8],
    lines: &mut [u16],
    agreed: &mut u32,
    count: &mut u32,
) -> u32
    ensures { AgreeExported first.now second.now lines.old agreed.old count.old result
        lines.new agreed.new count.new }
{
    let reply = match agree(first, second) {
        Ok(reply) => reply,
        Err(refusal) => return refusal.number() as u32,
    };
    let n = reply.count;
    if lines.len() < n * 4 {
        return Refusal::BufferShort.number() as u32;
    }
    put_lines(
        reply.kinds,
        reply.labels,
        reply.lefts,
        reply.rights,
        n,
        lines,
    );
    *agreed = none_shown(n);
    *count = n as u32;
    0
}
