// A leaf's row: the cost of a state is lowered to that of each label that gives it.
ghost use Rattle.state_sets.specs.StateSets.{member};
ghost use Rattle.fewest.specs.inner.Rows.{leaf_costs, Relaxed, CostRow, LeafArgs};

use crate::rows::relax::change_cost;

// Lowers the row by every label of a leaf of label a that may take the labels of the set.
pub fn relax_leaf(row: &mut [u32], leaves: &[u8], s: usize, k: usize, a: usize, labels: u64)
    requires { LeafArgs leaves.now s k × CostRow s row.old }
    ensures { Relaxed s (leaf_costs leaves.now k a (member labels)) row.old row.new }
{
    for b in 0..k {
        let to = leaves[b] as usize;
        let c = change_cost(a, b, labels);
        let y = row[to];
        row[to] = y.min(c);
    }
}
