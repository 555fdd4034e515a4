// The counts of one part, after those of the earlier roots, for any inputs.
ghost use Rattle.std.specs.Prelude.{◌≡◌, ℕ, ◌<◌, length};
ghost use Rattle.questions.specs.inner.PartArgs.{part_view};
ghost use Rattle.choices.specs.inner.Part.{label_range, no_places, PlaceArgs, PlacesAre, PartNeeds, PartCounted};

use crate::part_steps::carry::Carried;
use crate::part_steps::root::root_counts;
use formats::limits::STATE_LIMIT;
use questions::part::last_below;
use tables::node_tables::moves::size_at;

// The labels that a node may have: those from `first` to before `end`.
#[derive(Clone, Copy)]
pub struct LabelRange {
    pub first: usize,
    pub end: usize,
}

// All labels of an open node, its own of another.
fn label_range(labels: &[u8], k: usize, free: bool, v: usize) -> LabelRange
    requires { v < length labels.now }
    ensures { result ≡ label_range labels.now k free v }
{
    if free {
        return LabelRange { first: 0, end: k };
    }
    let a = labels[v] as usize;
    LabelRange {
        first: a,
        end: a + 1,
    }
}

// The left child of a part's root, and the places from 1, among the earlier roots, of the last below the left child and
// of the last below the right one; 0 for none.
#[derive(Clone, Copy)]
pub struct Places {
    pub ok: bool,
    pub child: usize,
    pub left: usize,
    pub right: usize,
}

// No child and no places, as a leaf has them.
fn no_places(ok: bool) -> Places
    ensures { result ≡ no_places ok }
{
    Places {
        ok,
        child: 0,
        left: 0,
        right: 0,
    }
}

// The left child of v and the places of the last roots below its children. Not ok where these would lie outside the
// plan.
fn places_below(kinds: &[u8], node_table: &[u16], earlier: &[u16], v: usize) -> Places
    requires { PlaceArgs kinds.now node_table.now earlier.now v }
    ensures { PlacesAre kinds.now node_table.now earlier.now v result }
{
    if kinds[v] == 0 {
        return no_places(true);
    }
    if v == 0 {
        return no_places(false);
    }
    let z = size_at(node_table, v - 1);
    if v - 1 < z {
        return no_places(false);
    }
    let child = v - 1 - z;
    let left = last_below(node_table, earlier, child);
    let right = last_below(node_table, earlier, v - 1);
    Places {
        ok: true,
        child,
        left,
        right,
    }
}

// The counts of root v, open or not, where `table` has those of the earlier roots, 16 for each. `out` is 0 at first.
// Not ok where v's own label is none, or a value read leads outside the plan or the states.
// Its many parameters are the runs of plan, rule table and tables, and N, S and K: a struct of slices would need a
// proof of its borrows by hand (docs/DECISIONS.md, "Many parameters").
pub fn part_counts(
    labels: &[u8],
    kinds: &[u8],
    leaves: &[u8],
    inner: &[u8],
    node_table: &[u16],
    state_table: &[u8],
    n: usize,
    s: usize,
    k: usize,
    earlier: &[u16],
    table: &[u64],
    free: bool,
    v: usize,
    out: &mut [u64; STATE_LIMIT],
) -> Carried
    requires { PartNeeds n s k labels.now kinds.now leaves.now inner.now node_table.now
        state_table.now earlier.now table.now v out.old }
    ensures { PartCounted (part_view n s k labels.now kinds.now leaves.now
        inner.now node_table.now state_table.now) (λ (u : ℕ). free)
        earlier.now table.now v result out.new }
{
    let b = label_range(labels, k, free, v);
    if k < b.end {
        return Carried {
            ok: false,
            links: 0,
        };
    }
    let p = places_below(kinds, node_table, earlier, v);
    if !p.ok {
        return Carried {
            ok: false,
            links: 0,
        };
    }
    root_counts(
        labels,
        kinds,
        leaves,
        inner,
        node_table,
        state_table,
        n,
        s,
        k,
        earlier,
        table,
        v,
        p.child,
        p.left,
        p.right,
        b.first,
        b.end,
        out,
    )
}
