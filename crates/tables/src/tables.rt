// A whole table of states: the run's states, then the maps.
ghost use Rattle.std.specs.Prelude.{length};
ghost use Rattle.tables.specs.inner.Written.{TableArgs, StatesOver};

use crate::maps::fill_maps;
use crate::states::run_states;

// Writes the state table of the tree with these kinds and labels. The excess of a longer buffer is untouched.
pub fn write_states(
    kinds: &[u8],
    labels: &[u8],
    node_table: &[u16],
    leaves: &[u8],
    inner: &[u8],
    s: usize,
    k: usize,
    state_table: &mut [u8],
)
    requires { TableArgs kinds.now labels.now node_table.now leaves.now inner.now s k (length state_table.old) }
    ensures { StatesOver s k leaves.now inner.now kinds.now labels.now
        state_table.old state_table.new }
{
    run_states(kinds, labels, node_table, leaves, inner, s, k, state_table);
    fill_maps(kinds, labels, node_table, inner, s, k, state_table);
}
