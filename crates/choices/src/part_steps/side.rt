// The counts at one child of a part's root: those of its run state, of the root that it is, or carried up to it.
ghost use Rattle.std.specs.Prelude.{◌≡◌};
ghost use Rattle.tables.specs.inner.PathViews.{path_view};
ghost use Rattle.choices.specs.part_steps.Side.{RowArgs, RowCopied, SideArgs, SideDone};

use crate::part_steps::carry::{Carried, carry_counts};
use formats::limits::STATE_LIMIT;
use tables::lookups::run_on;

// Copies the counts of part i out of those of all parts, 16 for each.
pub fn copy_row(table: &[u64], i: usize, out: &mut [u64; STATE_LIMIT])
    requires { RowArgs table.now i out.old }
    ensures { RowCopied table.now i out.new }
{
    let at = i * STATE_LIMIT;
    out.copy_from_slice(&table[at..at + STATE_LIMIT]);
}

// The counts at child c, at depth `to`, where `own` is the place from 1 of the last earlier root below c and `other`
// that of the last below its sibling: 1 at the run's state without a root below, the root's own with roots below both,
// else what the climb from the root makes of its counts. `out` is 0 at first.
// On the many parameters see docs/DECISIONS.md, "Many parameters".
pub fn side_counts(
    labels: &[u8],
    inner: &[u8],
    node_table: &[u16],
    state_table: &[u8],
    n: usize,
    s: usize,
    k: usize,
    earlier: &[u16],
    table: &[u64],
    to: usize,
    c: usize,
    own: usize,
    other: usize,
    out: &mut [u64; STATE_LIMIT],
) -> Carried
    requires { SideArgs n s k labels.now inner.now node_table.now state_table.now earlier.now
        table.now c own out.old }
    ensures { SideDone (path_view n s k labels.now inner.now node_table.now
        state_table.now) earlier.now table.now to c own other result out.new }
{
    if own == 0 {
        let x = run_on(state_table, s, c);
        if s <= x {
            return Carried {
                ok: false,
                links: 0,
            };
        }
        out[x] = 1;
        return Carried { ok: true, links: 0 };
    }
    if other != 0 {
        copy_row(table, own - 1, out);
        return Carried { ok: true, links: 0 };
    }
    let mut row = [0u64; STATE_LIMIT];
    copy_row(table, own - 1, &mut row);
    let from = earlier[own - 1] as usize;
    carry_counts(
        labels,
        inner,
        node_table,
        state_table,
        n,
        s,
        k,
        from,
        to,
        &row,
        out,
    )
}
