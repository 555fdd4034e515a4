// The search for a lowest common ancestor, for any node table. It counts no link.
ghost use Rattle.std.specs.Prelude.{◌≡◌, ℕ, ◌+◌, ◌*◌, ◌≤◌, length};
ghost use Rattle.tables.specs.node_tables.Cells.{cell_forest};
ghost use Rattle.tables.specs.node_tables.inner.MoveAnswers.{MoveArgs};
ghost use Rattle.tables.specs.node_tables.Cells.{is_in_subtree_on};
ghost use Rattle.questions.specs.Search.{next_unless, meet_on};
ghost use Rattle.questions.specs.inner.SearchAnswers.{meeting_of, target_of, rising_meeting};

use tables::node_tables::moves::{depth_at, is_below, jump_at, parent_at};

// A node, or that a value read leads outside the plan or a move does not rise.
#[derive(Clone, Copy)]
pub enum Meeting {
    At(usize),
    Outside,
}

// Node u, where it is one of the n nodes and less deep than node v.
fn if_rising(node_table: &[u16], n: usize, v: usize, u: usize) -> Meeting
    requires { MoveArgs n node_table.now v }
    ensures { result ≡ rising_meeting (cell_forest n node_table.now) v u }
{
    if n <= u {
        return Meeting::Outside;
    }
    if depth_at(node_table, v) <= depth_at(node_table, u) {
        return Meeting::Outside;
    }
    Meeting::At(u)
}

// Where the search for a node with u below it goes next from node v: by the jump, unless that has u below it; else to
// the parent.
fn next_unless(node_table: &[u16], n: usize, u: usize, v: usize) -> Meeting
    requires { MoveArgs n node_table.now v }
    ensures { result ≡ target_of (cell_forest n node_table.now)
        (next_unless (cell_forest n node_table.now) (λ (x : ℕ). is_in_subtree_on node_table.now x u) v) }
{
    let j = jump_at(node_table, v);
    if n <= j {
        return Meeting::Outside;
    }
    if is_below(node_table, j, u) {
        return if_rising(node_table, n, v, parent_at(node_table, v));
    }
    if_rising(node_table, n, v, j)
}

// The lowest node above node v, v included, that has u below it.
pub fn meet(node_table: &[u16], n: usize, u: usize, v: usize) -> Meeting
    requires { MoveArgs n node_table.now v }
    ensures { result ≡ meeting_of (meet_on n node_table.now u v) }
{
    let mut x = v;
    while !is_below(node_table, x, u) {
        match next_unless(node_table, n, u, x) {
            Meeting::At(y) => {
                x = y;
            }
            Meeting::Outside => {
                return Meeting::Outside;
            }
        }
    }
    Meeting::At(x)
}
