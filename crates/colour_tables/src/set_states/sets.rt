// The pass for sets of states: a step takes a set to the states at the node that lead into it.
ghost use Rattle.std.specs.Prelude.{◌≡◌, List, ℕ, ◌^◌, ◌≤◌};
ghost use Rattle.trees.specs.Tree.{Tree, kinds_of};
ghost use Rattle.tables.specs.inner.Maps.{Prepared};
ghost use Rattle.colour_tables.specs.set_states.SetPass.{SetArgs, SetsFrom};

use crate::set_states::down::successors_down;
use crate::states::copies::{put_copy, row_above};

// How many sets of s states there are.
pub fn set_count(s: usize) -> usize
    requires { s ≤ 4 }
    ensures { (result ≡ 2 ^ s) × (result ≤ 16) }
{
    1 << s
}

// Writes the copy of each node, the root's first, and what its colours land on: `count` sets a node, from byte `base`
// on. In front of them are the run's states, and the first table of the numbers is the plan's own.
pub fn write_sets(
    labels: &[u8],
    inner: &[u8],
    s: usize,
    k: usize,
    count: usize,
    base: usize,
    numbers: &mut [u16],
    bytes: &mut [u8],
)
    requires { SetArgs labels.now inner.now s k count base numbers.old bytes.old }
    ensures { (lv mk : List ℕ) (t : Tree)
        → Prepared s k lv inner.now mk t (kinds_of t) labels.now numbers.old
        bytes.old
        → SetsFrom s k lv inner.now mk count base t 0 bytes.old numbers.old
        bytes.new numbers.new }
{
    let n = labels.len();
    for v in (0..n).rev() {
        let above = row_above(bytes, numbers, n, base, count, v);
        let successors = successors_down(above, labels, numbers, inner, bytes, n, s, k, count, v);
        put_copy(successors, bytes, numbers, n, base, count, v);
    }
}
