// The counts of a root carried by the climb to a depth above it.
ghost use Rattle.std.specs.Prelude.{◌≡◌};
ghost use Rattle.tables.specs.inner.PathViews.{path_view};
ghost use Rattle.choices.specs.part_steps.Carry.{CarryArgs, CarriedUp};

use crate::node_counts::sums::capped_add;
use formats::limits::STATE_LIMIT;
use tables::answers::Climbed;
use tables::climb::climb_state;

// Whether every climb ended in a state, and the links of a climb.
#[derive(Clone, Copy)]
pub struct Carried {
    pub ok: bool,
    pub links: u32,
}

// Adds to `out` the counts at node `from`, each at the state to which the climb to depth `to` takes it.
pub fn carry_counts(
    labels: &[u8],
    inner: &[u8],
    node_table: &[u16],
    state_table: &[u8],
    n: usize,
    s: usize,
    k: usize,
    from: usize,
    to: usize,
    row: &[u64; STATE_LIMIT],
    out: &mut [u64; STATE_LIMIT],
) -> Carried
    requires { CarryArgs n s k labels.now inner.now node_table.now state_table.now from
        row.now out.old }
    ensures { CarriedUp (path_view n s k labels.now inner.now node_table.now
        state_table.now) from to row.now out.old result out.new }
{
    let mut links: u32 = 0;
    for q in 0..s {
        match climb_state(labels, inner, node_table, state_table, n, s, k, from, to, q) {
            Climbed::Reached(x) => {
                let d = x.state as usize;
                links = x.links;
                out[d] = capped_add(out[d], row[q]);
            }
            Climbed::OutOfRange => {
                return Carried {
                    ok: false,
                    links: 0,
                };
            }
        }
    }
    Carried { ok: true, links }
}
