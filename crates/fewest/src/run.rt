// The run over the plan as it is, in the work space: each node's size and state, in rising node number.
ghost use Rattle.std.specs.Prelude.{◌≡◌, ◌≤◌, length};
ghost use Rattle.allowed.specs.inner.Inputs.{PassArgs};
ghost use Rattle.allowed.specs.inner.masks.Up.{inner_cell, node_cell, InnerCellArgs, NodeCellArgs, UpWritten};
ghost use Rattle.fewest.specs.inner.Marked.{RunArgs, RootMarked};

use formats::rules::rule;

// What the inner node v of label a gets, from its children's.
fn inner_cell(cells: &[u32], inner: &[u8], s: usize, k: usize, v: usize, a: usize) -> u32
    requires { InnerCellArgs cells.now inner.now s k v a }
    ensures { result ≡ inner_cell cells.now inner.now s k v a }
{
    let y = cells[v - 1];
    let right = (y % 65536) as usize;
    let x = cells[v - 1 - right];
    let p = (x / 65536 % 16) as usize;
    let q = (y / 65536 % 16) as usize;
    let to = rule(inner, s, k, p, a, q);
    (x % 65536) + (y % 65536) + 1 + 65536 * (to as u32)
}

// What node v gets.
fn node_cell(
    kinds: &[u8],
    labels: &[u8],
    leaves: &[u8],
    inner: &[u8],
    s: usize,
    k: usize,
    cells: &[u32],
    v: usize,
) -> u32
    requires { NodeCellArgs kinds.now labels.now leaves.now inner.now s k cells.now v }
    ensures { result ≡ node_cell kinds.now labels.now leaves.now inner.now s k
        cells.now v }
{
    let a = labels[v] as usize;
    if kinds[v] == 0 {
        return 1 + 65536 * (leaves[a] as u32);
    }
    inner_cell(cells, inner, s, k, v, a)
}

// Writes each node's size and state.
fn run_up(
    kinds: &[u8],
    labels: &[u8],
    leaves: &[u8],
    inner: &[u8],
    s: usize,
    k: usize,
    cells: &mut [u32],
)
    requires { PassArgs kinds.now labels.now leaves.now inner.now s k × (length kinds.now ≤ length cells.old) }
    ensures { UpWritten kinds.now labels.now leaves.now inner.now s k
        (length kinds.now) cells.old cells.new }
{
    for v in 0..kinds.len() {
        let x = node_cell(kinds, labels, leaves, inner, s, k, cells, v);
        cells[v] = x;
    }
}

// The mark of the root's state. The first numbers of the work space are written, one for each node.
pub fn root_mark(
    kinds: &[u8],
    labels: &[u8],
    leaves: &[u8],
    inner: &[u8],
    marks: &[u8],
    s: usize,
    k: usize,
    work: &mut [u32],
) -> u8
    requires { RunArgs kinds.now labels.now leaves.now inner.now marks.now s k (length work.old) }
    ensures { RootMarked kinds.now labels.now leaves.now inner.now
        marks.now s k work.old result work.new }
{
    run_up(kinds, labels, leaves, inner, s, k, work);
    let x = work[kinds.len() - 1];
    marks[(x / 65536 % 16) as usize]
}
