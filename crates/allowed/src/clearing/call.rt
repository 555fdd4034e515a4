// The call: the clearing states of each node of a plan, from plan and rules alone.
ghost use Rattle.std.specs.Prelude.{◌≡◌, ◌≤◌, length};
ghost use Rattle.formats.specs.Refusals.{answer_number};
ghost use Rattle.allowed.specs.Answers.{clearing_over, ClearingDone};
ghost use Rattle.allowed.specs.inner.Inputs.{PassArgs, MarksGiven, CallArgs};
ghost use Rattle.allowed.specs.inner.clearing.Down.{SetsWritten};

use crate::check::check_node_room;
use crate::clearing::down::sets_down;
use crate::clearing::up::pairs_up;
use crate::sets::marked_set;
use formats::bytes::read32;
use formats::refusals::Refusal;
use formats::rules::inner_count;

// Writes each node's clearing states: up, then down from the marked states.
fn write_sets(
    kinds: &[u8],
    labels: &[u8],
    leaves: &[u8],
    inner: &[u8],
    marks: &[u8],
    s: usize,
    k: usize,
    cells: &mut [u16],
)
    requires { PassArgs kinds.now labels.now leaves.now inner.now s k × MarksGiven marks.now s
        × (length kinds.now ≤ length cells.old) }
    ensures { SetsWritten kinds.now labels.now leaves.now inner.now marks.now
        s k cells.old cells.new }
{
    pairs_up(kinds, labels, leaves, inner, s, k, cells);
    let c = marked_set(marks, s);
    sets_down(kinds, labels, inner, s, k, cells, c);
}

// The same of a plan and rules that pass their checks. Labels, kinds and states are handed on as parts.
fn write_clearing(plan: &[u8], rules: &[u8], n: usize, s: usize, k: usize, sets: &mut [u16])
    requires { CallArgs plan.now rules.now n s k (length sets.old) }
    ensures { sets.new ≡ clearing_over plan.now rules.now sets.old }
{
    let end = 20 + k + inner_count(s, k);
    write_sets(
        &plan[12 + n..],
        &plan[12..12 + n],
        &rules[20..20 + k],
        &rules[20 + k..end],
        &rules[end..],
        s,
        k,
        sets,
    );
}

// For each node the states with which the plan is cleared, as the bits of a number: bit q is 1 exactly where the plan is
// cleared with state q at this node, all else as it is. It asks 2 to 11; refused, nothing is written.
pub fn clearing_states(plan: &[u8], rules: &[u8], sets: &mut [u16]) -> Result<(), Refusal>
    ensures { ClearingDone plan.now rules.now sets.old (answer_number result) sets.new }
{
    check_node_room(plan, rules, sets.len())?;
    let n = read32(plan, 0);
    let s = read32(rules, 0);
    let k = read32(rules, 4);
    write_clearing(plan, rules, n, s, k, sets);
    Ok(())
}
