// The call: the labels that each node of a plan may take, from plan and rules alone.
ghost use Rattle.std.specs.Prelude.{◌≡◌, ◌≤◌, length};
ghost use Rattle.formats.specs.Refusals.{answer_number};
ghost use Rattle.allowed.specs.Answers.{allowed_over, AllowedDone};
ghost use Rattle.allowed.specs.inner.Inputs.{PassArgs, MarksGiven, CallArgs};
ghost use Rattle.allowed.specs.inner.masks.Down.{DownWritten};
ghost use Rattle.allowed.specs.inner.masks.Root.{root_set, RootArgs};

use crate::check::check_node_room;
use crate::masks::down::come_down;
use crate::masks::up::run_up;
use crate::sets::marked_set;
use formats::bytes::read32;
use formats::refusals::Refusal;
use formats::rules::inner_count;

// The root's set: the marked states.
fn set_root(marks: &[u8], s: usize, root: usize, cells: &mut [u64])
    requires { RootArgs cells.old marks.now s root }
    ensures { cells.new ≡ root_set cells.old marks.now s root }
{
    let c = marked_set(marks, s);
    let x = cells[root];
    cells[root] = x + 1048576 * c;
}

// Writes each node's allowed labels: up, the root's set, down.
fn write_parts(
    kinds: &[u8],
    labels: &[u8],
    leaves: &[u8],
    inner: &[u8],
    marks: &[u8],
    s: usize,
    k: usize,
    cells: &mut [u64],
)
    requires { PassArgs kinds.now labels.now leaves.now inner.now s k × MarksGiven marks.now s
        × (length kinds.now ≤ length cells.old) }
    ensures { DownWritten kinds.now labels.now leaves.now inner.now marks.now
        s k 0 cells.old cells.new }
{
    run_up(kinds, labels, leaves, inner, s, k, cells);
    set_root(marks, s, kinds.len() - 1, cells);
    come_down(kinds, labels, leaves, inner, s, k, cells);
}

// The same of a plan and rules that pass their checks. Labels, kinds and states are handed on as parts.
fn write_allowed(plan: &[u8], rules: &[u8], n: usize, s: usize, k: usize, masks: &mut [u64])
    requires { CallArgs plan.now rules.now n s k (length masks.old) }
    ensures { masks.new ≡ allowed_over plan.now rules.now masks.old }
{
    let end = 20 + k + inner_count(s, k);
    write_parts(
        &plan[12 + n..],
        &plan[12..12 + n],
        &rules[20..20 + k],
        &rules[20 + k..end],
        &rules[end..],
        s,
        k,
        masks,
    );
}

// For each node the labels that it may take, as the bits of a number: bit a is 1 exactly where the plan with this node
// alone relabelled to a is cleared. It asks 2 to 11; refused, nothing is written.
pub fn allowed_labels(plan: &[u8], rules: &[u8], masks: &mut [u64]) -> Result<(), Refusal>
    ensures { AllowedDone plan.now rules.now masks.old (answer_number result) masks.new }
{
    check_node_room(plan, rules, masks.len())?;
    let n = read32(plan, 0);
    let s = read32(rules, 0);
    let k = read32(rules, 4);
    write_allowed(plan, rules, n, s, k, masks);
    Ok(())
}
