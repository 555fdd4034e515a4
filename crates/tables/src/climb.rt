// The climb with a state over a rule table: from a node with its state to a depth, on any inputs.
ghost use Rattle.std.specs.Prelude.{◌≡◌};
ghost use Rattle.tables.specs.Climbs.{below, parent_on, climb_on, climbed_of};
ghost use Rattle.tables.specs.inner.PathViews.{path_view};
ghost use Rattle.tables.specs.inner.Steps.{step_on, landed, ClimbArgs, ParentArgs};

use crate::answers::{Climbed, Reached};
use crate::lookups::{rule_on, run_on, sibling_on};
use crate::node_tables::moves::{NextMove, depth_at, next_move};

// The node that a move leads to and the state there: no state where the number is not below S.
#[derive(Clone, Copy)]
pub struct Landed {
    pub node: usize,
    pub state: usize,
}

// What a move from node v to its parent p makes of state q: the parent's label and the other child's run state are
// applied. A returned number that is not below S means no state.
fn parent_on(
    labels: &[u8],
    inner: &[u8],
    node_table: &[u16],
    state_table: &[u8],
    n: usize,
    s: usize,
    k: usize,
    v: usize,
    p: usize,
    q: usize,
) -> usize
    requires { ParentArgs n s k labels.now inner.now node_table.now state_table.now v p q }
    ensures { below s result ≡ parent_on (path_view n s k labels.now inner.now
        node_table.now state_table.now) v p q }
{
    let u = sibling_on(node_table, n, v, p);
    if n <= u {
        return s;
    }
    let x = run_on(state_table, s, u);
    if s <= x {
        return s;
    }
    let a = labels[p] as usize;
    if v + 1 == p {
        return rule_on(inner, s, k, x, a, q);
    }
    rule_on(inner, s, k, q, a, x)
}

// The next move from node v to depth `to`: the node that it leads to and what it makes of state q.
fn step_on(
    labels: &[u8],
    inner: &[u8],
    node_table: &[u16],
    state_table: &[u8],
    n: usize,
    s: usize,
    k: usize,
    v: usize,
    to: usize,
    q: usize,
) -> Landed
    requires { ClimbArgs n s k labels.now inner.now node_table.now state_table.now v q }
    ensures { landed s result ≡ step_on (path_view n s k labels.now inner.now
        node_table.now state_table.now) v to q }
{
    match next_move(node_table, n, v, to) {
        NextMove::Jump(j) => Landed {
            node: j,
            state: state_table[v * (s + 1) + (1 + q)] as usize,
        },
        NextMove::Parent(p) => Landed {
            node: p,
            state: parent_on(labels, inner, node_table, state_table, n, s, k, v, p, q),
        },
        NextMove::Stuck => Landed { node: v, state: s },
    }
}

// The climb from node `from` with state q to depth `to`: the state there, the links, and the nodes passed over.
pub fn climb_state(
    labels: &[u8],
    inner: &[u8],
    node_table: &[u16],
    state_table: &[u8],
    n: usize,
    s: usize,
    k: usize,
    from: usize,
    to: usize,
    q: usize,
) -> Climbed
    requires { ClimbArgs n s k labels.now inner.now node_table.now state_table.now from q }
    ensures { result ≡ climbed_of (climb_on (path_view n s k labels.now inner.now
        node_table.now state_table.now) from to q) }
{
    let mut v = from;
    let mut x = q;
    let mut links: u32 = 0;
    while to < depth_at(node_table, v) {
        let next = step_on(labels, inner, node_table, state_table, n, s, k, v, to, x);
        let y = next.state;
        if s <= y {
            return Climbed::OutOfRange;
        }
        v = next.node;
        x = y;
        links += 1;
    }
    let passed = depth_at(node_table, from) - depth_at(node_table, v);
    Climbed::Reached(Reached {
        state: x as u8,
        links,
        passed: passed as u32,
    })
}
