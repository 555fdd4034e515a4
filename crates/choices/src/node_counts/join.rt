// The counts of a node: those of both children multiplied, for every label that it may have.
ghost use Rattle.std.specs.Prelude.{◌≡◌};
ghost use Rattle.choices.specs.node_counts.Join.{AccumulateArgs, Accumulated, RowArgs, RowJoined, JoinArgs, Joined};

use crate::node_counts::sums::{capped_add, capped_times};
use formats::limits::STATE_LIMIT;

// x assignments below end in states p at the left and q at the right: for every label b from `from` to before `to` they
// end in the state that p, b and q lead to.
pub fn accumulate(
    inner: &[u8],
    s: usize,
    k: usize,
    from: usize,
    to: usize,
    p: usize,
    q: usize,
    x: u64,
    out: &mut [u64; STATE_LIMIT],
)
    requires { AccumulateArgs inner.now s k from to p q x out.old }
    ensures { Accumulated inner.now s k from to p q x out.old out.new }
{
    if x == 0 {
        return;
    }
    for b in from..to {
        let d = inner[(p * k + b) * s + q] as usize;
        out[d] = capped_add(out[d], x);
    }
}

// The same for x assignments at the left and all counts at the right.
pub fn join_row(
    inner: &[u8],
    s: usize,
    k: usize,
    from: usize,
    to: usize,
    p: usize,
    x: u64,
    right: &[u64; STATE_LIMIT],
    out: &mut [u64; STATE_LIMIT],
)
    requires { RowArgs inner.now s k from to p right.now out.old }
    ensures { RowJoined inner.now s k from to p x right.now out.old
        out.new }
{
    for q in 0..s {
        let y = capped_times(right[q], x);
        accumulate(inner, s, k, from, to, p, q, y, out);
    }
}

// The same for all counts at both sides: the counts of a node whose labels are those from `from` to before `to`, added
// to `out`.
pub fn join(
    inner: &[u8],
    s: usize,
    k: usize,
    from: usize,
    to: usize,
    left: &[u64; STATE_LIMIT],
    right: &[u64; STATE_LIMIT],
    out: &mut [u64; STATE_LIMIT],
)
    requires { JoinArgs inner.now s k from to left.now right.now out.old }
    ensures { Joined inner.now s k from to left.now right.now out.old
        out.new }
{
    for p in 0..s {
        join_row(inner, s, k, from, to, p, left[p], right, out);
    }
}
