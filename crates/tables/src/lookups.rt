// Lookups of a rule, a run state or a sibling, on any inputs. The number returned names a state if it is below S, or a
// node if it is below N; any other number means that a value was out of range.
ghost use Rattle.std.specs.Prelude.{◌≡◌};
ghost use Rattle.tables.specs.Climbs.{below, run_on, rule_on, sibling_on};
ghost use Rattle.tables.specs.inner.PathViews.{rules_view, states_view, nodes_view, RuleOnArgs, RunOnArgs, PairArgs};

use crate::node_tables::moves::size_at;

// The state for left state p, label a and right state q.
pub fn rule_on(inner: &[u8], s: usize, k: usize, p: usize, a: usize, q: usize) -> usize
    requires { RuleOnArgs s k inner.now p q }
    ensures { below s result ≡ rule_on (rules_view s k inner.now) p a q }
{
    if k <= a {
        return s;
    }
    inner[(p * k + a) * s + q] as usize
}

// The run state of node v.
pub fn run_on(state_table: &[u8], s: usize, v: usize) -> usize
    requires { RunOnArgs s state_table.now v }
    ensures { below s result ≡ run_on (states_view s state_table.now) v }
{
    state_table[v * (s + 1)] as usize
}

// The other child of node v's parent p, by v's size.
pub fn sibling_on(node_table: &[u16], n: usize, v: usize, p: usize) -> usize
    requires { PairArgs n node_table.now v p }
    ensures { below n result ≡ sibling_on (nodes_view n node_table.now) v p }
{
    if v + 1 == p {
        let z = size_at(node_table, v);
        if v < z {
            return n;
        }
        return v - z;
    }
    if p == 0 {
        return n;
    }
    p - 1
}
