// The counts of an inner node that is a part's root, from those at its children.
ghost use Rattle.std.specs.Prelude.{◌≡◌};
ghost use Rattle.tables.specs.inner.PathViews.{path_view};
ghost use Rattle.choices.specs.part_steps.Fork.{ForkArgs, ForkDone};

use crate::node_counts::join::join;
use crate::part_steps::carry::Carried;
use crate::part_steps::side::side_counts;
use formats::limits::STATE_LIMIT;

// The counts of a node with children l and r at depth `to`, where i and j are the places of the last earlier roots
// below them, and whose labels are those from `first` to before `end`. `out` is 0 at first.
// On the many parameters see docs/DECISIONS.md, "Many parameters".
pub fn fork_counts(
    labels: &[u8],
    inner: &[u8],
    node_table: &[u16],
    state_table: &[u8],
    n: usize,
    s: usize,
    k: usize,
    earlier: &[u16],
    table: &[u64],
    to: usize,
    l: usize,
    r: usize,
    i: usize,
    j: usize,
    first: usize,
    end: usize,
    out: &mut [u64; STATE_LIMIT],
) -> Carried
    requires { ForkArgs n s k labels.now inner.now node_table.now state_table.now earlier.now
        table.now l r i j first end out.old }
    ensures { ForkDone (path_view n s k labels.now inner.now node_table.now
        state_table.now) earlier.now table.now to l r i j first end result
        out.new }
{
    let mut left = [0u64; STATE_LIMIT];
    let x = side_counts(
        labels,
        inner,
        node_table,
        state_table,
        n,
        s,
        k,
        earlier,
        table,
        to,
        l,
        i,
        j,
        &mut left,
    );
    if !x.ok {
        return Carried {
            ok: false,
            links: 0,
        };
    }
    let mut right = [0u64; STATE_LIMIT];
    let y = side_counts(
        labels,
        inner,
        node_table,
        state_table,
        n,
        s,
        k,
        earlier,
        table,
        to,
        r,
        j,
        i,
        &mut right,
    );
    if !y.ok {
        return Carried {
            ok: false,
            links: 0,
        };
    }
    join(inner, s, k, first, end, &left, &right, out);
    Carried {
        ok: true,
        links: x.links + y.links,
    }
}
