// The build of a table of links.
ghost use Rattle.std.specs.Prelude.{◌≡◌, ◌++◌, length, drop};
ghost use Rattle.trees.specs.Tree.{Tree, kinds_of};
ghost use Rattle.trees.specs.Tables.{node_table_of};
ghost use Rattle.formats.specs.Checks.{node_table_length};
ghost use Rattle.tables.specs.node_tables.Cells.{NodeTableArgs};

use crate::node_tables::down::write_down;
use crate::node_tables::jump_lengths::jump_lengths;
use crate::node_tables::up::write_up;

// Writes the table of links of the tree with these kinds. The excess of a longer buffer is untouched.
pub fn build_node_table(kinds: &[u8], node_table: &mut [u16])
    requires { NodeTableArgs kinds.now (length node_table.old) }
    ensures { (t : Tree) → kinds_of t ≡ kinds.now
        → node_table.new ≡ node_table_of t ++ drop (node_table_length (length kinds.now)) node_table.old }
{
    write_up(kinds, node_table);
    let lengths = jump_lengths();
    write_down(node_table, &lengths, kinds.len());
}
