// The counts of a part's root, leaf or inner node.
ghost use Rattle.std.specs.Prelude.{◌≡◌};
ghost use Rattle.tables.specs.inner.PathViews.{path_view};
ghost use Rattle.choices.specs.part_steps.Root.{RootArgs, RootDone};

use crate::node_counts::join::accumulate;
use crate::part_steps::carry::Carried;
use crate::part_steps::fork::fork_counts;
use formats::limits::STATE_LIMIT;
use tables::node_tables::moves::depth_at;

// The counts of node v with labels from `first` to before `end`: a leaf's at its leaf states, an inner node's from its
// children l and v - 1, where i and j are the places of the last earlier roots below them. `out` is 0 at first.
// On the many parameters see docs/DECISIONS.md, "Many parameters".
pub fn root_counts(
    labels: &[u8],
    kinds: &[u8],
    leaves: &[u8],
    inner: &[u8],
    node_table: &[u16],
    state_table: &[u8],
    n: usize,
    s: usize,
    k: usize,
    earlier: &[u16],
    table: &[u64],
    v: usize,
    l: usize,
    i: usize,
    j: usize,
    first: usize,
    end: usize,
    out: &mut [u64; STATE_LIMIT],
) -> Carried
    requires { RootArgs n s k labels.now kinds.now leaves.now inner.now node_table.now state_table.now
        earlier.now table.now v l i j first end out.old }
    ensures { RootDone (path_view n s k labels.now inner.now node_table.now
        state_table.now) kinds.now leaves.now earlier.now
        table.now v l i j first end result out.new }
{
    if kinds[v] == 0 {
        accumulate(leaves, 1, k, first, end, 0, 0, 1, out);
        return Carried { ok: true, links: 0 };
    }
    let to = depth_at(node_table, v) + 1;
    fork_counts(
        labels,
        inner,
        node_table,
        state_table,
        n,
        s,
        k,
        earlier,
        table,
        to,
        l,
        v - 1,
        i,
        j,
        first,
        end,
        out,
    )
}
