// An inner node's row, way by way: the cost of a state is lowered to that of each way into it.
ghost use Rattle.std.specs.Prelude.{◌≡◌, ◌≤◌, ◌<◌};
ghost use Rattle.state_sets.specs.StateSets.{member};
ghost use Rattle.fewest.specs.inner.Images.{ImagesFit};
ghost use Rattle.fewest.specs.inner.Rows.{change_of, labels_cost, right_cost, left_cost, Relaxed, CostRow, RowArgs, RightArgs, LeftArgs};

use crate::rows::NO_WAY;
use crate::rows::images::relax_image;
use formats::rules::rule;

// The cost of label b at a node of label a that may take the labels of the set.
pub fn change_cost(a: usize, b: usize, labels: u64) -> u32
    requires { b < 64 }
    ensures { (result ≡ change_of (member labels) a b) × (result ≤ 65536) }
{
    if a == b {
        return 0;
    }
    if (labels >> b) & 1 == 1 {
        return 1;
    }
    NO_WAY
}

// Lowers the row by every label, over states p and q that cost `base` together.
pub fn relax_labels(
    row: &mut [u32],
    inner: &[u8],
    s: usize,
    k: usize,
    p: usize,
    q: usize,
    a: usize,
    labels: u64,
    base: u32,
)
    requires { RowArgs inner.now s k p q a base × CostRow s row.old }
    ensures { Relaxed s (labels_cost inner.now s k p q a (member labels) base) row.old row.new }
{
    for b in 0..k {
        let to = rule(inner, s, k, p, b, q) as usize;
        let c = change_cost(a, b, labels);
        let y = row[to];
        row[to] = y.min(base + c);
    }
}

// The same, by the states' image where there is one; nothing is lowered where the states cost 65,536 or more together.
fn relax_way(
    row: &mut [u32],
    inner: &[u8],
    images: &[u16],
    s: usize,
    k: usize,
    p: usize,
    q: usize,
    a: usize,
    labels: u64,
    base: u32,
)
    requires { RowArgs inner.now s k p q a base × CostRow s row.old × ImagesFit inner.now s k a (member labels) images.now }
    ensures { Relaxed s (labels_cost inner.now s k p q a (member labels) base) row.old row.new }
{
    if NO_WAY <= base {
        return;
    }
    if images.len() == 0 {
        relax_labels(row, inner, s, k, p, q, a, labels, base);
        return;
    }
    relax_image(row, inner, s, k, p, q, a, labels, base, images[p * s + q]);
}

// Lowers the row by every right state and label, beside the left state p, which costs `left`; the right states cost
// what `right` has.
pub fn relax_right(
    row: &mut [u32],
    inner: &[u8],
    images: &[u16],
    s: usize,
    k: usize,
    p: usize,
    left: u32,
    right: &[u32],
    a: usize,
    labels: u64,
)
    requires { RightArgs inner.now s k p a left right.now × CostRow s row.old
        × ImagesFit inner.now s k a (member labels) images.now }
    ensures { Relaxed s (right_cost inner.now s k p a (member labels) left right.now) row.old
        row.new }
{
    for q in 0..s {
        relax_way(row, inner, images, s, k, p, q, a, labels, left + right[q]);
    }
}

// Lowers the row by every left state, right state and label.
pub fn relax_left(
    row: &mut [u32],
    inner: &[u8],
    images: &[u16],
    s: usize,
    k: usize,
    left: &[u32],
    right: &[u32],
    a: usize,
    labels: u64,
)
    requires { LeftArgs inner.now s k a left.now right.now × CostRow s row.old
        × ImagesFit inner.now s k a (member labels) images.now }
    ensures { Relaxed s (left_cost inner.now s k a (member labels) left.now right.now)
        row.old row.new }
{
    for p in 0..s {
        relax_right(row, inner, images, s, k, p, left[p], right, a, labels);
    }
}
