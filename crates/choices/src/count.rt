// The whole count: the checks, the roots of the parts, and the counts of the last part.
ghost use Rattle.std.specs.Prelude.{◌≡◌, length};
ghost use Rattle.formats.specs.Refusals.{told};
ghost use Rattle.questions.specs.inner.PartArgs.{part_view};
ghost use Rattle.questions.specs.PartAnswers.{view_in};
ghost use Rattle.choices.specs.Promise.{CountDone};
ghost use Rattle.choices.specs.inner.Count.{counted_for, counted_on, RootArgs, OnArgs, RunArgs};

use crate::checks::check_count;
use crate::part_steps::side::copy_row;
use crate::parts::all_parts;
use formats::bytes::read32;
use formats::layout::{LABEL_COUNT_AT, NODE_COLUMNS, PLAN_HEAD, RULES_HEAD};
use formats::limits::{PART_LIMIT, STATE_LIMIT};
use formats::refusals::Refusal;
use formats::rules::all_below;
use questions::roots::roots;

// The counts by state, how many parts there were and the links of their climbs.
#[derive(Clone, Copy)]
pub struct Counted {
    pub counts: [u64; STATE_LIMIT],
    pub parts: u32,
    pub links: u32,
}

// Room for the counts of the largest number of parts, 16 for each.
fn room_for_parts() -> [u64; PART_LIMIT * STATE_LIMIT]
    ensures { length result ≡ 4064 }
{
    [0u64; PART_LIMIT * STATE_LIMIT]
}

// The count for these roots: part by part, of which the last is the plan's root.
fn count_parts(
    labels: &[u8],
    kinds: &[u8],
    leaves: &[u8],
    inner: &[u8],
    node_table: &[u16],
    state_table: &[u8],
    n: usize,
    s: usize,
    k: usize,
    nodes: &[u16],
    roots: &[u16],
) -> Result<Counted, Refusal>
    requires { RootArgs n s k labels.now kinds.now leaves.now inner.now node_table.now state_table.now
        nodes.now roots.now }
    ensures { result ≡ counted_for (part_view n s k labels.now kinds.now leaves.now
        inner.now node_table.now state_table.now) nodes.now
        roots.now }
{
    let mut table = room_for_parts();
    let x = all_parts(
        labels,
        kinds,
        leaves,
        inner,
        node_table,
        state_table,
        n,
        s,
        k,
        nodes,
        roots,
        &mut table,
    );
    if !x.ok {
        return Err(Refusal::LentValue);
    }
    let p = roots.len();
    let mut counts = [0u64; STATE_LIMIT];
    copy_row(&table[..p * STATE_LIMIT], p - 1, &mut counts);
    Ok(Counted {
        counts,
        parts: p as u32,
        links: x.links,
    })
}

// The count on these runs: refused where a value leads outside.
fn count_on(
    labels: &[u8],
    kinds: &[u8],
    leaves: &[u8],
    inner: &[u8],
    node_table: &[u16],
    state_table: &[u8],
    n: usize,
    s: usize,
    k: usize,
    nodes: &[u16],
) -> Result<Counted, Refusal>
    requires { OnArgs n s k labels.now kinds.now leaves.now inner.now node_table.now state_table.now
        nodes.now }
    ensures { result ≡ counted_on (part_view n s k labels.now kinds.now leaves.now
        inner.now node_table.now state_table.now) nodes.now }
{
    if !all_below(leaves, s as u8) {
        return Err(Refusal::LentValue);
    }
    if !all_below(inner, s as u8) {
        return Err(Refusal::LentValue);
    }
    let found = roots(n, node_table, nodes);
    if !found.ok {
        return Err(Refusal::LentValue);
    }
    let p = found.count;
    let list = found.nodes;
    count_parts(
        labels,
        kinds,
        leaves,
        inner,
        node_table,
        state_table,
        n,
        s,
        k,
        nodes,
        &list[..p],
    )
}

// The same from a plan of n nodes and rules of s states and k labels: their runs, and the tables without their excess,
// are handed on as parts.
fn count_runs(
    n: usize,
    s: usize,
    k: usize,
    plan: &[u8],
    rules: &[u8],
    node_table: &[u16],
    state_table: &[u8],
    nodes: &[u16],
) -> Result<Counted, Refusal>
    requires { RunArgs n s k plan.now rules.now node_table.now state_table.now nodes.now }
    ensures { result ≡ counted_on (view_in n s k plan.now rules.now node_table.now
        state_table.now) nodes.now }
{
    count_on(
        &plan[PLAN_HEAD..PLAN_HEAD + n],
        &plan[PLAN_HEAD + n..],
        &rules[RULES_HEAD..RULES_HEAD + k],
        &rules[RULES_HEAD + k..RULES_HEAD + k + s * k * s],
        &node_table[..n * NODE_COLUMNS],
        &state_table[..n * (s + 1)],
        n,
        s,
        k,
        nodes,
    )
}

// How many assignments of the K labels to these different nodes end in each state: N, S and K are those of the headers.
// Asks 17, 12, 13, 15, 26 and 18 in this order.
pub fn count(
    plan: &[u8],
    rules: &[u8],
    node_table: &[u16],
    state_table: &[u8],
    nodes: &[u16],
) -> Result<Counted, Refusal>
    ensures { CountDone plan.now rules.now node_table.now
        state_table.now nodes.now (told result) }
{
    check_count(plan, rules, node_table, state_table, nodes)?;
    let n = read32(plan, 0);
    let s = read32(rules, 0);
    let k = read32(rules, LABEL_COUNT_AT);
    count_runs(n, s, k, plan, rules, node_table, state_table, nodes)
}
