// Listed leaves and the pairs of listed inner nodes: each loop or-s its differences into one number, 0 where there is
// none, and has few values at hand at a time. The number of states is chosen once a list.
ghost use Rattle.std.specs.Prelude.{◌≡◌, eqb, get_or};
ghost use Rattle.tables.specs.node_tables.JumpLengths.{jump_lengths};
ghost use Rattle.tables.specs.inner.Compare.{every};
ghost use Rattle.table_checks.specs.inner.PairNodes.{pair_nodes};
ghost use Rattle.table_checks.specs.inner.PairStates.{leaf_is, pair_states, LeafRoom};
ghost use Rattle.table_checks.specs.inner.Blocks.{LeavesArgs, ListedArgs, PairsArgs};

use crate::rows::pair_differences;
use crate::rows2::pair_differences2;
use crate::rows16::pair_differences16;
use crate::siblings::pair_node_differences;
use formats::layout::{NODE_COLUMNS, SIZE};
use tables::node_tables::jump_lengths::LENGTH_COUNT;

// Where leaf v's size and state are not a leaf's; 0 nowhere.
fn leaf_differences(
    labels: &[u8],
    node_table: &[u16],
    leaves: &[u8],
    inner: &[u8],
    s: usize,
    k: usize,
    n: usize,
    state_table: &[u8],
    v: usize,
) -> u16
    requires { LeafRoom labels.now node_table.now leaves.now inner.now s k n state_table.now v }
    ensures { eqb result 0 ≡ leaf_is labels.now node_table.now leaves.now s
        state_table.now v }
{
    let size = node_table[v * NODE_COLUMNS + SIZE] ^ 1;
    let a = labels[v] as usize;
    let state = state_table[v * (s + 1)] ^ leaves[a];
    size | (state as u16)
}

// Whether the first c listed leaves match.
pub fn listed_leaves_match(
    labels: &[u8],
    node_table: &[u16],
    leaves: &[u8],
    inner: &[u8],
    s: usize,
    k: usize,
    n: usize,
    state_table: &[u8],
    list: &[u16],
    c: usize,
) -> bool
    requires { LeavesArgs labels.now node_table.now leaves.now inner.now s k n state_table.now
        list.now c }
    ensures { result ≡ every c (λ i. leaf_is labels.now node_table.now leaves.now s
        state_table.now (get_or list.now i 0)) }
{
    let mut bad = 0;
    for v in &list[..c] {
        let v = *v as usize;
        let leaf = leaf_differences(labels, node_table, leaves, inner, s, k, n, state_table, v);
        bad |= leaf;
    }
    bad == 0
}

// Whether the pairs of the first c listed nodes match in the node table.
pub fn listed_nodes_match(
    node_table: &[u16],
    lengths: &[u16; LENGTH_COUNT],
    n: usize,
    list: &[u16],
    c: usize,
) -> bool
    requires { ListedArgs node_table.now n list.now c × (lengths.now ≡ jump_lengths) }
    ensures { result ≡ every c (λ i. pair_nodes n node_table.now (get_or list.now i 0)) }
{
    let mut bad = 0;
    for v in &list[..c] {
        let v = *v as usize;
        let nodes = pair_node_differences(node_table, lengths, n, v);
        bad |= nodes;
    }
    bad == 0
}

// Whether the states and maps of their pairs match, by the way for S states: 2, 16, or any number.
fn listed_states_match<const S: usize>(
    labels: &[u8],
    node_table: &[u16],
    leaves: &[u8],
    inner: &[u8],
    s: usize,
    k: usize,
    n: usize,
    state_table: &[u8],
    list: &[u16],
    c: usize,
) -> bool
    requires { PairsArgs labels.now node_table.now leaves.now inner.now s k n state_table.now
        list.now c × ((S ≡ 2 → s ≡ 2) × (S ≡ 16 → s ≡ 16)) }
    ensures { result ≡ every c (λ i. pair_states labels.now node_table.now inner.now
        s k n state_table.now (get_or list.now i 0)) }
{
    let mut bad = 0;
    for v in &list[..c] {
        let v = *v as usize;
        let states = match S {
            2 => pair_differences2(labels, node_table, leaves, inner, k, n, state_table, v),
            16 => pair_differences16(labels, node_table, leaves, inner, k, n, state_table, v),
            _ => pair_differences(labels, node_table, leaves, inner, s, k, n, state_table, v),
        };
        bad |= states;
    }
    bad == 0
}

// The same, the way chosen by the number of states.
pub fn listed_states_match_any(
    labels: &[u8],
    node_table: &[u16],
    leaves: &[u8],
    inner: &[u8],
    s: usize,
    k: usize,
    n: usize,
    state_table: &[u8],
    list: &[u16],
    c: usize,
) -> bool
    requires { PairsArgs labels.now node_table.now leaves.now inner.now s k n state_table.now
        list.now c }
    ensures { result ≡ every c (λ i. pair_states labels.now node_table.now inner.now
        s k n state_table.now (get_or list.now i 0)) }
{
    match s {
        2 => listed_states_match::<2>(
            labels,
            node_table,
            leaves,
            inner,
            s,
            k,
            n,
            state_table,
            list,
            c,
        ),
        16 => listed_states_match::<16>(
            labels,
            node_table,
            leaves,
            inner,
            s,
            k,
            n,
            state_table,
            list,
            c,
        ),
        _ => listed_states_match::<0>(
            labels,
            node_table,
            leaves,
            inner,
            s,
            k,
            n,
            state_table,
            list,
            c,
        ),
    }
}
