// The sets that those of a row lead to, one step down.
ghost use Rattle.std.specs.Prelude.{◌≤◌};
ghost use Rattle.colour_tables.specs.sets.Sets.{ImageArgs, SuccessorsBy};

use crate::sets::bits::preimage;

// The preimages of the first k sets of a row by `above`.
pub fn successors_by_set(row: [u8; 16], above: &[u8], k: usize) -> [u8; 16]
    requires { ImageArgs above.now × (k ≤ 16) }
    ensures { SuccessorsBy above.now row k result }
{
    let mut successors = [0u8; 16];
    for c in 0..k {
        successors[c] = preimage(above, row[c]);
    }
    successors
}
