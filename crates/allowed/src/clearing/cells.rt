// What the buffer holds between the passes: of an inner node the first node of its subtree, and at the first node of its
// right child's subtree the states of both children and its own.
ghost use Rattle.std.specs.Prelude.{◌≡◌};
ghost use Rattle.allowed.specs.inner.clearing.Cells.{first_node_in, state_in, FirstArgs, StateArgs};

// The first node of node u's subtree.
pub fn first_of(kinds: &[u8], cells: &[u16], u: usize) -> usize
    requires { FirstArgs kinds.now cells.now u }
    ensures { result ≡ first_node_in kinds.now cells.now u }
{
    if kinds[u] == 0 {
        return u;
    }
    cells[u] as usize
}

// The state of node u in the run.
pub fn state_of(kinds: &[u8], labels: &[u8], leaves: &[u8], cells: &[u16], u: usize) -> usize
    requires { StateArgs kinds.now labels.now leaves.now cells.now u }
    ensures { result ≡ state_in kinds.now labels.now leaves.now cells.now u }
{
    if kinds[u] == 0 {
        return leaves[labels[u] as usize] as usize;
    }
    let f = first_of(kinds, cells, u - 1);
    (cells[f] / 256) as usize
}
