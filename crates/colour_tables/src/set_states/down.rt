// One step down over sets of states, for a whole row.
ghost use Rattle.std.specs.Prelude.{get_or};
ghost use Rattle.colour_tables.specs.states.inner.Rows.{RowOf};
ghost use Rattle.colour_tables.specs.set_states.Down.{down_set, DownArgs};

use crate::set_states::above::states_above;
use crate::sets::successors::successors_by_set;

// The sets at node v of n that lead into the first `count` of the row above; into the root's copy nothing changes.
pub fn successors_down(
    row: [u8; 16],
    labels: &[u8],
    numbers: &[u16],
    inner: &[u8],
    bytes: &[u8],
    n: usize,
    s: usize,
    k: usize,
    count: usize,
    v: usize,
) -> [u8; 16]
    requires { DownArgs row labels.now numbers.now inner.now bytes.now n s k count v }
    ensures { RowOf count (λ c. down_set labels.now numbers.now inner.now
        bytes.now n s k v (get_or row c 0)) result }
{
    if v + 1 == n {
        return row;
    }
    let above = states_above(labels, numbers, inner, bytes, s, k, v);
    successors_by_set(row, &above[..s], count)
}
