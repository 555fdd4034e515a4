// The pass up: each node's size and state, in rising node number.
ghost use Rattle.std.specs.Prelude.{◌≡◌, ◌≤◌, length};
ghost use Rattle.allowed.specs.inner.masks.Up.{inner_cell, node_cell, InnerCellArgs, NodeCellArgs, UpWritten};
ghost use Rattle.allowed.specs.inner.Inputs.{PassArgs};

use formats::rules::rule;

// What the inner node v of label a gets, from its children's.
fn inner_cell(cells: &[u64], inner: &[u8], s: usize, k: usize, v: usize, a: usize) -> u64
    requires { InnerCellArgs cells.now inner.now s k v a }
    ensures { result ≡ inner_cell cells.now inner.now s k v a }
{
    let y = cells[v - 1];
    let right = (y % 65536) as usize;
    let x = cells[v - 1 - right];
    let p = (x / 65536 % 16) as usize;
    let q = (y / 65536 % 16) as usize;
    let to = rule(inner, s, k, p, a, q);
    (x % 65536) + (y % 65536) + 1 + 65536 * (to as u64)
}

// What node v gets.
fn node_cell(
    kinds: &[u8],
    labels: &[u8],
    leaves: &[u8],
    inner: &[u8],
    s: usize,
    k: usize,
    cells: &[u64],
    v: usize,
) -> u64
    requires { NodeCellArgs kinds.now labels.now leaves.now inner.now s k cells.now v }
    ensures { result ≡ node_cell kinds.now labels.now leaves.now inner.now s k
        cells.now v }
{
    let a = labels[v] as usize;
    if kinds[v] == 0 {
        return 1 + 65536 * (leaves[a] as u64);
    }
    inner_cell(cells, inner, s, k, v, a)
}

// Writes each node's size and state.
pub fn run_up(
    kinds: &[u8],
    labels: &[u8],
    leaves: &[u8],
    inner: &[u8],
    s: usize,
    k: usize,
    cells: &mut [u64],
)
    requires { PassArgs kinds.now labels.now leaves.now inner.now s k × (length kinds.now ≤ length cells.old) }
    ensures { UpWritten kinds.now labels.now leaves.now inner.now s k
        (length kinds.now) cells.old cells.new }
{
    for v in 0..kinds.len() {
        cells[v] = node_cell(kinds, labels, leaves, inner, s, k, cells, v);
    }
}
