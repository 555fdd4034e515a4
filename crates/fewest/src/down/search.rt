// The first way into a state at its cost: left state, right state and label.
ghost use Rattle.std.specs.Prelude.{◌≡◌, true, cond, ◌+◌, ◌≤◌, ◌<◌, eqb, get_or};
ghost use Rattle.state_sets.specs.StateSets.{member};
ghost use Rattle.fewest.specs.Least.{no_way_out};
ghost use Rattle.fewest.specs.inner.Rows.{change_of, label_cost, leaf_cost, LeafArgs, RowArgs};
ghost use Rattle.fewest.specs.inner.down.Search.{any_of, First, label_hit, right_hit, left_hit, RightSearch, LeftSearch, Chosen};

use crate::rows::NO_WAY;
use crate::rows::relax::change_cost;
use formats::rules::rule;

// The cost of state j by label b, which leads to state `to`, over states that cost `base` together.
fn cost_by(to: usize, j: usize, a: usize, b: usize, labels: u64, base: u32) -> u32
    requires { (b < 64) × (base ≤ 131072) }
    ensures { result ≡ cond (eqb to j) (base + change_of (member labels) a b) no_way_out }
{
    if to != j {
        return NO_WAY;
    }
    base + change_cost(a, b, labels)
}

// The cost of state j by label b, over states p and q that cost `base` together.
fn label_cost(
    inner: &[u8],
    s: usize,
    k: usize,
    p: usize,
    q: usize,
    a: usize,
    labels: u64,
    base: u32,
    j: usize,
    b: usize,
) -> u32
    requires { RowArgs inner.now s k p q a base × (b < k) }
    ensures { result ≡ label_cost inner.now s k p q a (member labels) base j b }
{
    cost_by(rule(inner, s, k, p, b, q) as usize, j, a, b, labels, base)
}

// The first label that gives state j at cost c; k where none does.
fn find_label(
    inner: &[u8],
    s: usize,
    k: usize,
    p: usize,
    q: usize,
    a: usize,
    labels: u64,
    base: u32,
    j: usize,
    c: u32,
) -> usize
    requires { RowArgs inner.now s k p q a base }
    ensures { First k (label_hit inner.now s k p q a (member labels) base j c) result }
{
    for b in 0..k {
        if label_cost(inner, s, k, p, q, a, labels, base, j, b) == c {
            return b;
        }
    }
    k
}

// Whether some label gives state j at cost c. Where the states cost more than c, none does.
fn label_hits(
    inner: &[u8],
    s: usize,
    k: usize,
    p: usize,
    q: usize,
    a: usize,
    labels: u64,
    base: u32,
    j: usize,
    c: u32,
) -> bool
    requires { RowArgs inner.now s k p q a base × (c < 65536) }
    ensures { result ≡ any_of k (label_hit inner.now s k p q a (member labels) base j c) }
{
    if c < base {
        return false;
    }
    find_label(inner, s, k, p, q, a, labels, base, j, c) < k
}

// The first right state that gives state j at cost c, beside the left state p, which costs x; s where none does. The
// right states' costs stand from `at` on.
fn find_right(
    work: &[u32],
    inner: &[u8],
    s: usize,
    k: usize,
    p: usize,
    x: u32,
    at: usize,
    a: usize,
    labels: u64,
    j: usize,
    c: u32,
) -> usize
    requires { RightSearch work.now inner.now s k p x at c }
    ensures { First s (right_hit work.now inner.now s k p x at a (member labels) j c) result }
{
    for q in 0..s {
        if label_hits(inner, s, k, p, q, a, labels, x + work[at + q], j, c) {
            return q;
        }
    }
    s
}

// The first left state that gives state j at cost c; s where none does. The left states' costs stand from `from` on.
fn find_left(
    work: &[u32],
    inner: &[u8],
    s: usize,
    k: usize,
    from: usize,
    at: usize,
    a: usize,
    labels: u64,
    j: usize,
    c: u32,
) -> usize
    requires { LeftSearch work.now inner.now s k from at c }
    ensures { First s (left_hit work.now inner.now s k from at a (member labels) j c) result }
{
    for p in 0..s {
        if find_right(work, inner, s, k, p, work[from + p], at, a, labels, j, c) < s {
            return p;
        }
    }
    s
}

// A way into a state: the children's states and the label.
#[derive(Clone, Copy)]
pub struct Choice {
    pub left: usize,
    pub right: usize,
    pub label: usize,
}

// The first way into state j at cost c, where there is one.
pub fn choose(
    work: &[u32],
    inner: &[u8],
    s: usize,
    k: usize,
    from: usize,
    at: usize,
    a: usize,
    labels: u64,
    j: usize,
    c: u32,
) -> Choice
    requires { LeftSearch work.now inner.now s k from at c
        × (any_of s (left_hit work.now inner.now s k from at a (member labels) j c) ≡ true) }
    ensures { Chosen work.now inner.now s k from at a (member labels) j c result.left result.right result.label }
{
    let p = find_left(work, inner, s, k, from, at, a, labels, j, c);
    let x = work[from + p];
    let q = find_right(work, inner, s, k, p, x, at, a, labels, j, c);
    let b = find_label(inner, s, k, p, q, a, labels, x + work[at + q], j, c);
    Choice {
        left: p,
        right: q,
        label: b,
    }
}

// The cost of state j of a leaf of label a by label b.
fn leaf_cost(leaves: &[u8], s: usize, k: usize, a: usize, labels: u64, j: usize, b: usize) -> u32
    requires { LeafArgs leaves.now s k × (b < k) }
    ensures { result ≡ leaf_cost leaves.now a (member labels) j b }
{
    cost_by(leaves[b] as usize, j, a, b, labels, 0)
}

// The first label that gives a leaf state j at cost c; k where none does.
pub fn find_leaf_label(
    leaves: &[u8],
    s: usize,
    k: usize,
    a: usize,
    labels: u64,
    j: usize,
    c: u32,
) -> usize
    requires { LeafArgs leaves.now s k }
    ensures { First k (λ b. eqb (leaf_cost leaves.now a (member labels) j b) c) result }
{
    for b in 0..k {
        if leaf_cost(leaves, s, k, a, labels, j, b) == c {
            return b;
        }
    }
    k
}
