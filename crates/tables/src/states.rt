// The run over a plan: each node's state byte, in rising node number.
ghost use Rattle.std.specs.Prelude.{◌≡◌, length, get_or};
ghost use Rattle.tables.specs.inner.States.{InnerArgs, StateArgs, Runs, inner_state};
ghost use Rattle.tables.specs.inner.States.{Leaves, LeafArgs, BlockRun, RunBlockArgs};

use crate::node_tables::blocks::{BLOCK, empty_list, list_inner};
use formats::layout::{NODE_COLUMNS, SIZE};
use formats::rules::rule;

// The state of the inner node v of label a, from its children's.
pub fn inner_state(
    node_table: &[u16],
    state_table: &[u8],
    inner: &[u8],
    s: usize,
    k: usize,
    v: usize,
    a: usize,
) -> u8
    requires { InnerArgs node_table.now state_table.now inner.now s k v a }
    ensures { result ≡ inner_state node_table.now state_table.now inner.now s k v a }
{
    let w = s + 1;
    let right = v - 1;
    let left = right - (node_table[right * NODE_COLUMNS + SIZE] as usize);
    let p = state_table[left * w] as usize;
    let q = state_table[right * w] as usize;
    rule(inner, s, k, p, a, q)
}

// Writes the states of the nodes b, .. e - 1 as if all were leaves.
fn leaf_states(labels: &[u8], leaves: &[u8], s: usize, b: usize, e: usize, state_table: &mut [u8])
    requires { LeafArgs labels.now leaves.now s b e (length state_table.old) }
    ensures { Leaves s leaves.now labels.now b e state_table.old
        state_table.new }
{
    for v in b..e {
        state_table[v * (s + 1)] = leaves[labels[v] as usize];
    }
}

// Writes the states of the nodes b, .. e - 1: all as leaves, then the inner ones in rising node number.
fn run_block(
    kinds: &[u8],
    labels: &[u8],
    node_table: &[u16],
    leaves: &[u8],
    inner: &[u8],
    s: usize,
    k: usize,
    b: usize,
    e: usize,
    list: &mut [u16],
    state_table: &mut [u8],
)
    requires { RunBlockArgs kinds.now labels.now node_table.now leaves.now inner.now s k b e
        (length list.old)
        state_table.old }
    ensures { BlockRun s k leaves.now inner.now kinds.now labels.now b e
        state_table.old state_table.new }
{
    leaf_states(labels, leaves, s, b, e, state_table);
    let c = list_inner(kinds, b, e, list);
    for i in 0..c {
        let v = list[i] as usize;
        let x = inner_state(node_table, state_table, inner, s, k, v, labels[v] as usize);
        state_table[v * (s + 1)] = x;
    }
}

// Writes each node's state in the run.
pub fn run_states(
    kinds: &[u8],
    labels: &[u8],
    node_table: &[u16],
    leaves: &[u8],
    inner: &[u8],
    s: usize,
    k: usize,
    state_table: &mut [u8],
)
    requires { StateArgs kinds.now labels.now node_table.now leaves.now inner.now s k (length state_table.old) }
    ensures { Runs s k leaves.now inner.now kinds.now labels.now
        (length kinds.now) state_table.old state_table.new }
{
    let n = kinds.len();
    let mut list = empty_list();
    for b in (0..n).step_by(BLOCK) {
        run_block(
            kinds,
            labels,
            node_table,
            leaves,
            inner,
            s,
            k,
            b,
            (b + BLOCK).min(n),
            &mut list,
            state_table,
        );
    }
}
