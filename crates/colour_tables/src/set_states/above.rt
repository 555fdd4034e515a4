// For each state at a node the state that follows at its parent, with the plan's labels and the run's states beside
// the path.
ghost use Rattle.std.specs.Prelude.{◌+◌, ◌*◌, get_or};
ghost use Rattle.tables.specs.inner.Maps.{near_value};
ghost use Rattle.colour_tables.specs.set_states.StatesAbove.{StatesAboveTo, FromArgs, UpArgs};

use tables::node_tables::moves::{parent_at, size_at};

// Four bytes of which the first s are the table's at base + q * stride.
fn states_above_from(inner: &[u8], s: usize, base: usize, stride: usize) -> [u8; 4]
    requires { FromArgs inner.now s base stride }
    ensures { StatesAboveTo s (λ q. get_or inner.now (base + q * stride) 0) result }
{
    let mut above = [0u8; 4];
    for q in 0..s {
        above[q] = inner[base + q * stride];
    }
    above
}

// The states at the parent of node v, below the root.
pub fn states_above(
    labels: &[u8],
    numbers: &[u16],
    inner: &[u8],
    bytes: &[u8],
    s: usize,
    k: usize,
    v: usize,
) -> [u8; 4]
    requires { UpArgs labels.now numbers.now inner.now bytes.now s k v }
    ensures { StatesAboveTo s (near_value labels.now numbers.now inner.now s k
        bytes.now v) result }
{
    let p = parent_at(numbers, v);
    let a = labels[p] as usize;
    if v + 1 == p {
        let u = v - size_at(numbers, v);
        let x = bytes[u * (s + 1)] as usize;
        return states_above_from(inner, s, (x * k + a) * s, 1);
    }
    let y = bytes[(p - 1) * (s + 1)] as usize;
    states_above_from(inner, s, a * s + y, k * s)
}
