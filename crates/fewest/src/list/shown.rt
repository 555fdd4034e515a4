// The least number of changes, and the list of changes.
ghost use Rattle.std.specs.Prelude.{◌≡◌, ◌+◌, ◌-◌, ◌*◌, length};
ghost use Rattle.fewest.specs.inner.list.Written.{RootTold, RootTellArgs, LeastArgs, LeastDone, ShowGiven, ShowDone, WriteArgs, FewestWritten};

use crate::down::labels::labels_down;
use crate::down::root::{root_least, root_state};
use crate::list::entries::list_changes;
use crate::passes::up::costs_up;
use formats::limits::CHANGE_LIMIT;

// The most changes that are listed.
const MOST_LISTED: u32 = CHANGE_LIMIT as u32;

// Tells the root v the first state of that mark that costs m.
fn tell_root(work: &mut [u32], marks: &[u8], s: usize, v: usize, mark: u8, m: u32)
    requires { RootTellArgs work.old marks.now s v }
    ensures { RootTold work.old marks.now s v mark m work.new }
{
    let at = v * (s + 1);
    let g = root_state(work, marks, s, at + 1, mark, m);
    work[at] = g as u32;
}

// Writes each node's size and costs; the least cost of the root over the states of that mark.
fn least_up(
    kinds: &[u8],
    labels: &[u8],
    leaves: &[u8],
    inner: &[u8],
    marks: &[u8],
    may: &[u64],
    s: usize,
    k: usize,
    mark: u8,
    work: &mut [u32],
) -> u32
    requires { LeastArgs kinds.now labels.now leaves.now inner.now marks.now may.now s k (length work.old) }
    ensures { LeastDone kinds.now labels.now leaves.now inner.now
        marks.now may.now s k mark work.old result work.new }
{
    costs_up(kinds, labels, leaves, inner, may, s, k, work);
    root_least(work, marks, s, (kinds.len() - 1) * (s + 1) + 1, mark)
}

// From the rows of costs: the labels that are shown, and the list of changes; how many.
fn show(
    kinds: &[u8],
    labels: &[u8],
    leaves: &[u8],
    inner: &[u8],
    marks: &[u8],
    may: &[u64],
    s: usize,
    k: usize,
    mark: u8,
    m: u32,
    work: &mut [u32],
    nodes: &mut [u16],
    out: &mut [u8],
) -> u32
    requires { ShowGiven kinds.now labels.now leaves.now inner.now marks.now may.now s k mark m work.old
        (length nodes.old) (length out.old) }
    ensures { ShowDone kinds.now labels.now leaves.now inner.now
        marks.now may.now s k mark work.old nodes.old out.old
        result work.new nodes.new out.new }
{
    tell_root(work, marks, s, kinds.len() - 1, mark, m);
    labels_down(kinds, labels, leaves, inner, may, s, k, work);
    list_changes(labels, work, s, nodes, out) as u32
}

// The least number of changes; and the list of changes where it is at most 64, else none; how many are listed.
pub fn write_fewest(
    kinds: &[u8],
    labels: &[u8],
    leaves: &[u8],
    inner: &[u8],
    marks: &[u8],
    may: &[u64],
    s: usize,
    k: usize,
    mark: u8,
    work: &mut [u32],
    nodes: &mut [u16],
    out: &mut [u8],
    least: &mut u32,
) -> u32
    requires { WriteArgs kinds.now labels.now leaves.now inner.now marks.now may.now s k
        (length work.old) (length nodes.old) (length out.old) }
    ensures { FewestWritten kinds.now labels.now leaves.now inner.now
        marks.now may.now s k mark work.old nodes.old out.old
        result work.new nodes.new out.new least.new }
{
    let m = least_up(kinds, labels, leaves, inner, marks, may, s, k, mark, work);
    *least = m;
    if MOST_LISTED < m {
        return 0;
    }
    show(
        kinds, labels, leaves, inner, marks, may, s, k, mark, m, work, nodes, out,
    )
}
