// One search: a climb among the nodes of one colour's table, given by the node it ends at and its links.
ghost use Rattle.std.specs.Prelude.{◌≡◌};
ghost use Rattle.trees.specs.Climb.{next_move};
ghost use Rattle.tables.specs.node_tables.Cells.{cell_forest};
ghost use Rattle.tables.specs.node_tables.inner.MoveAnswers.{MoveArgs};
ghost use Rattle.colour_questions.specs.path_drops.inner.Search.{next_node, search_on, searched_of};

use tables::node_tables::moves::{NextMove, depth_at, next_move};

// Where a search ends, and its links.
#[derive(Clone, Copy)]
pub struct Searched {
    pub node: usize,
    pub links: u32,
}

// The node that the next move from node v to depth `to` leads to; n where there is none.
fn move_on(nums: &[u16], n: usize, v: usize, to: usize) -> usize
    requires { MoveArgs n nums.now v }
    ensures { result ≡ next_node (cell_forest n nums.now)
        (next_move (cell_forest n nums.now) v to) }
{
    match next_move(nums, n, v, to) {
        NextMove::Jump(j) => j,
        NextMove::Parent(p) => p,
        NextMove::Stuck => n,
    }
}

// The climb from node `from` to depth `to`, by the numbers as they are; None where it would leave the nodes or not rise.
pub fn search(nums: &[u16], n: usize, from: usize, to: usize) -> Option<Searched>
    requires { MoveArgs n nums.now from }
    ensures { result ≡ searched_of (search_on (cell_forest n nums.now) from to) }
{
    let mut v = from;
    let mut links: u32 = 0;
    while to < depth_at(nums, v) {
        let u = move_on(nums, n, v, to);
        if n <= u {
            return None;
        }
        v = u;
        links += 1;
    }
    Some(Searched { node: v, links })
}
