// The places of a planner's nodes in our plan, from the child counts: one pass with a stack. The stack is in the plan's
// buffer, which is written afterwards, four bytes an entry: the node's number, how many siblings come after it, and 1
// for the first of its list.
ghost use Rattle.std.specs.Prelude.{◌≡◌, ◌∷◌, ℕ, ◌+◌, ◌-◌, ◌*◌, ◌<◌, ◌≤◌, eqb, length, get_or, set};
ghost use Rattle.planner.specs.out.inner.Stack.{goes_further, after_leaf, after_top, node_on_top, is_later, PushArgs};
ghost use Rattle.planner.specs.out.inner.Stack.{Pushed, CloseArgs, ListsClosed, NodeArgs, NodeRead, PlaceArgs};
ghost use Rattle.planner.specs.out.inner.Stack.{NodesPlaced};

// How far the stack goes, and the next place.
#[derive(Clone, Copy)]
pub struct Cursor {
    pub depth: usize,
    pub next: usize,
}

// The cursor, how many nodes of the list that is being read are still to come, and 1 where the next node is the first
// of its list.
#[derive(Clone, Copy)]
pub struct Walk {
    pub depth: usize,
    pub next: usize,
    pub left: u8,
    pub first: u8,
}

// Stores x at index `at`, where there is such an index.
fn put(places: &mut [u16], at: usize, x: u16)
    ensures { places.new ≡ set places.old at x }
{
    if at < places.len() {
        places[at] = x;
    }
}

// One entry more on the stack.
fn push(plan: &mut [u8], depth: usize, v: usize, after: u8, first: u8)
    requires { PushArgs plan.old depth v }
    ensures { Pushed depth v after first plan.old plan.new }
{
    plan[depth * 4] = (v % 256) as u8;
    plan[depth * 4 + 1] = (v / 256) as u8;
    plan[depth * 4 + 2] = after;
    plan[depth * 4 + 3] = first;
}

// How many siblings come after the top of the stack.
fn to_come(plan: &[u8], depth: usize) -> u8
    requires { depth * 4 ≤ length plan.now }
    ensures { result ≡ after_top plan.now depth }
{
    if depth == 0 {
        return 0;
    }
    plan[(depth - 1) * 4 + 2]
}

// Whether the top is to be written: its list is being closed, or nothing comes after it.
fn goes_on(plan: &[u8], depth: usize, closing: bool) -> bool
    requires { depth * 4 ≤ length plan.now }
    ensures { result ≡ goes_further plan.now depth closing }
{
    if depth == 0 {
        return false;
    }
    if closing {
        return true;
    }
    plan[(depth - 1) * 4 + 2] == 0
}

// The place behind the leaf that comes before the last of a list.
fn after_leaf(closing: bool, next: usize) -> usize
    requires { next ≤ 65535 }
    ensures { result ≡ after_leaf closing next }
{
    if closing {
        return next;
    }
    next + 1
}

// The node of the entry `at`.
fn node_on_top(plan: &[u8], at: usize) -> usize
    requires { at * 4 + 4 ≤ length plan.now }
    ensures { result ≡ node_on_top plan.now at }
{
    plan[at * 4] as usize + 256 * (plan[at * 4 + 1] as usize)
}

// Whether the entry `at` is not the first of its list.
fn is_later(plan: &[u8], at: usize) -> bool
    requires { at * 4 + 4 ≤ length plan.now }
    ensures { result ≡ is_later plan.now at }
{
    plan[at * 4 + 3] != 1
}

// Closes every list that is at its end: writes the places of its nodes, from the last to the first.
fn close_lists(plan: &[u8], places: &mut [u16], depth: usize, next: usize) -> Cursor
    requires { CloseArgs plan.now places.old depth next }
    ensures { ListsClosed plan.now depth next places.old result.depth result.next
        places.new }
{
    let mut top = depth;
    let mut at = next;
    let mut closing = false;
    while goes_on(plan, top, closing) {
        top = top - 1;
        at = after_leaf(closing, at);
        put(places, node_on_top(plan, top), at as u16);
        at = at + 1;
        closing = is_later(plan, top);
    }
    Cursor {
        depth: top,
        next: at,
    }
}

// Reads node v, which has `count` children.
fn read_node(plan: &mut [u8], places: &mut [u16], v: usize, count: u8, w: Walk) -> Walk
    requires { NodeArgs plan.old places.old v count w.depth w.next w.left w.first }
    ensures { NodeRead v count w.depth w.next w.left w.first plan.old places.old
        result.depth result.next result.left result.first plan.new places.new }
{
    push(plan, w.depth, v, w.left.saturating_sub(1), w.first);
    if count != 0 {
        return Walk {
            depth: w.depth + 1,
            next: w.next,
            left: count,
            first: 1,
        };
    }
    let c = close_lists(plan, places, w.depth + 1, w.next + 1);
    Walk {
        depth: c.depth,
        next: c.next,
        left: to_come(plan, c.depth),
        first: 0,
    }
}

// Writes the places of all nodes.
pub fn place_nodes(counts: &[u8], plan: &mut [u8], places: &mut [u16])
    requires { PlaceArgs counts.now plan.old places.old }
    ensures { NodesPlaced counts.now plan.old places.old plan.new
        places.new }
{
    let mut w = Walk {
        depth: 0,
        next: 0,
        left: 1,
        first: 1,
    };
    for (v, count) in counts.iter().enumerate() {
        w = read_node(plan, places, v, *count, w);
    }
}
