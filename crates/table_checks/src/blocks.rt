// Blocks of nodes: the inner ones listed without a branch on the kind, then tested; no test ends a block.
ghost use Rattle.std.specs.Prelude.{◌≡◌, length, get_or};
ghost use Rattle.tables.specs.node_tables.JumpLengths.{jump_lengths};
ghost use Rattle.tables.specs.inner.Compare.{every};
ghost use Rattle.table_checks.specs.inner.PairStates.{pair_is};
ghost use Rattle.table_checks.specs.inner.Blocks.{Means, BothListed, Nodes};
ghost use Rattle.table_checks.specs.inner.Blocks.{ListingArgs, PairsArgs, BlockArgs, BlocksArgs};

use crate::listed::{listed_leaves_match, listed_nodes_match, listed_states_match_any};
use tables::node_tables::blocks::{block_end, empty_list};
use tables::node_tables::jump_lengths::LENGTH_COUNT;

// Lists the inner nodes of b, .. e - 1 and the leaves, and returns the number of inner nodes. Each node is written to
// both lists, and the next node overwrites it in one of them, so that there is no branch on the kind.
fn list_block(kinds: &[u8], b: usize, e: usize, list: &mut [u16], leaf_list: &mut [u16]) -> usize
    requires { ListingArgs kinds.now b e (length list.old) (length leaf_list.old) }
    ensures { BothListed kinds.now b e result list.new leaf_list.new }
{
    let mut c = 0;
    for v in b..e {
        list[c] = v as u16;
        leaf_list[v - b - c] = v as u16;
        c += kinds[v] as usize;
    }
    c
}

// Whether the pairs of the first c listed nodes match.
fn pairs_match(
    labels: &[u8],
    node_table: &[u16],
    lengths: &[u16; LENGTH_COUNT],
    leaves: &[u8],
    inner: &[u8],
    s: usize,
    k: usize,
    n: usize,
    state_table: &[u8],
    list: &[u16],
    c: usize,
) -> bool
    requires { PairsArgs labels.now node_table.now leaves.now inner.now s k n state_table.now
        list.now c × (lengths.now ≡ jump_lengths) }
    ensures { result ≡ every c (λ i. pair_is labels.now node_table.now inner.now s
        k n state_table.now (get_or list.now i 0)) }
{
    let nodes = listed_nodes_match(node_table, lengths, n, list, c);
    let states = listed_states_match_any(
        labels,
        node_table,
        leaves,
        inner,
        s,
        k,
        n,
        state_table,
        list,
        c,
    );
    nodes & states
}

// Whether the nodes b, .. e - 1 match.
fn block_match(
    kinds: &[u8],
    labels: &[u8],
    node_table: &[u16],
    lengths: &[u16; LENGTH_COUNT],
    leaves: &[u8],
    inner: &[u8],
    s: usize,
    k: usize,
    state_table: &[u8],
    b: usize,
    e: usize,
    list: &mut [u16],
) -> bool
    requires { BlockArgs kinds.now labels.now node_table.now leaves.now inner.now s k
        state_table.now b e (length list.old) × (lengths.now ≡ jump_lengths) }
    ensures { Means result (Nodes kinds.now labels.now node_table.now
        leaves.now inner.now s k state_table.now b e) }
{
    let mut leaf_list = empty_list();
    let c = list_block(kinds, b, e, list, &mut leaf_list);
    if !listed_leaves_match(
        labels,
        node_table,
        leaves,
        inner,
        s,
        k,
        kinds.len(),
        state_table,
        &leaf_list,
        e - b - c,
    ) {
        return false;
    }
    pairs_match(
        labels,
        node_table,
        lengths,
        leaves,
        inner,
        s,
        k,
        kinds.len(),
        state_table,
        list,
        c,
    )
}

// Whether all nodes match, block by block.
pub fn blocks_match(
    kinds: &[u8],
    labels: &[u8],
    node_table: &[u16],
    lengths: &[u16; LENGTH_COUNT],
    leaves: &[u8],
    inner: &[u8],
    s: usize,
    k: usize,
    state_table: &[u8],
    list: &mut [u16],
) -> bool
    requires { BlocksArgs kinds.now labels.now node_table.now leaves.now inner.now s k state_table.now
        (length list.old) × (lengths.now ≡ jump_lengths) }
    ensures { Means result (Nodes kinds.now labels.now node_table.now
        leaves.now inner.now s k state_table.now 0 (length kinds.now)) }
{
    let n = kinds.len();
    let mut b = 0;
    while b < n {
        let e = block_end(b, n);
        if !block_match(
            kinds,
            labels,
            node_table,
            lengths,
            leaves,
            inner,
            s,
            k,
            state_table,
            b,
            e,
            list,
        ) {
            return false;
        }
        b = e;
    }
    true
}
