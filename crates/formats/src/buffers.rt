// Check 17: whether the buffers of a call fit N, S and K; N, S and K are given, or those of the headers.
ghost use Rattle.std.specs.Prelude.{◌≡◌, ◌≤◌, length};
ghost use Rattle.formats.specs.Rules.{rule_length};
ghost use Rattle.formats.specs.inner.InnerChecks.{Sizes};
ghost use Rattle.formats.specs.Buffers.{limits_fit, buffers_fit, headers_fit, headed_buffers_fit, branch_tables, LimitArgs};

use crate::branch::step_count;
use crate::bytes::read32;
use crate::inputs::room_fits;
use crate::layout::{BRANCH_HEAD, LABEL_COUNT_AT, PLAN_HEAD, RULES_HEAD};
use crate::limits::NODE_LIMIT;
use crate::rules::{counts_fit, inner_count};

// Are n, s and k within their limits?
pub fn limits_fit(n: usize, s: usize, k: usize) -> bool
    ensures { result ≡ limits_fit n s k }
{
    if n < 1 {
        return false;
    }
    if NODE_LIMIT < n {
        return false;
    }
    counts_fit(s, k)
}

// Of these lengths: is the plan's that of n nodes, the table's `exact`, and have both table buffers room for n nodes and s states?
pub fn buffers_fit(
    n: usize,
    s: usize,
    exact: usize,
    plan: usize,
    table: usize,
    node_table: usize,
    state_table: usize,
) -> bool
    requires { Sizes n s }
    ensures { result ≡ buffers_fit n s exact plan table node_table state_table }
{
    if plan != PLAN_HEAD + 2 * n {
        return false;
    }
    if table != exact {
        return false;
    }
    room_fits(n, s, node_table, state_table)
}

// Check 17 of a rule table, where N, S and K are given: the last four are lengths.
pub fn rule_buffers_fit(
    n: usize,
    s: usize,
    k: usize,
    plan: usize,
    rules: usize,
    node_table: usize,
    state_table: usize,
) -> bool
    requires { LimitArgs n s k }
    ensures { result ≡ buffers_fit n s (rule_length s k) plan rules node_table state_table }
{
    let exact = RULES_HEAD + k + inner_count(s, k) + s;
    buffers_fit(n, s, exact, plan, rules, node_table, state_table)
}

// Are the headers of plan and table there whole, that of the table being `header` bytes long, with N, S and K in their limits?
pub fn headers_fit(plan: &[u8], table: &[u8], header: usize) -> bool
    requires { 8 ≤ header }
    ensures { result ≡ headers_fit header plan.now table.now }
{
    if plan.len() < PLAN_HEAD {
        return false;
    }
    if table.len() < header {
        return false;
    }
    let n = read32(plan, 0);
    let s = read32(table, 0);
    let k = read32(table, LABEL_COUNT_AT);
    limits_fit(n, s, k)
}

// Check 17 of a branch table, where N, S and K are those of the headers.
pub fn branch_buffers_fit(
    plan: &[u8],
    branch: &[u8],
    node_table: &[u16],
    state_table: &[u8],
) -> bool
    ensures { result
        ≡ headed_buffers_fit branch_tables plan.now branch.now (length node_table.now)
        (length state_table.now) }
{
    if !headers_fit(plan, branch, BRANCH_HEAD) {
        return false;
    }
    let n = read32(plan, 0);
    let s = read32(branch, 0);
    let k = read32(branch, LABEL_COUNT_AT);
    let exact = BRANCH_HEAD + step_count(s, k) + s;
    buffers_fit(
        n,
        s,
        exact,
        plan.len(),
        branch.len(),
        node_table.len(),
        state_table.len(),
    )
}
