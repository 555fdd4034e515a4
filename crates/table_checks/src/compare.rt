// Both tables of a plan and a rule table compared by pairs.
ghost use Rattle.std.specs.Prelude.{length};
ghost use Rattle.table_checks.specs.inner.Tested.{MatchArgs, TablesTested};

use crate::blocks::blocks_match;
use crate::siblings::root_node_is;
use formats::rules::all_below;
use tables::compare::root_row_is;
use tables::node_tables::blocks::empty_list;
use tables::node_tables::jump_lengths::jump_lengths;

// Whether both buffers begin with the tables of the tree with these kinds and labels.
pub fn tables_match(
    kinds: &[u8],
    labels: &[u8],
    node_table: &[u16],
    leaves: &[u8],
    inner: &[u8],
    s: usize,
    k: usize,
    state_table: &[u8],
) -> bool
    requires { MatchArgs kinds.now labels.now node_table.now leaves.now inner.now s k
        (length state_table.now) }
    ensures { TablesTested s k leaves.now inner.now kinds.now
        labels.now node_table.now state_table.now result }
{
    let n = kinds.len();
    if !all_below(&state_table[..n * (s + 1)], s as u8) {
        return false;
    }
    if !root_node_is(node_table, n - 1) {
        return false;
    }
    if !root_row_is(state_table, s, n - 1) {
        return false;
    }
    let lengths = jump_lengths();
    let mut list = empty_list();
    blocks_match(
        kinds,
        labels,
        node_table,
        &lengths,
        leaves,
        inner,
        s,
        k,
        state_table,
        &mut list,
    )
}
