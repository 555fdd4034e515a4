// From drop to drop down a path, by the tables of all colours: one after the other, each with four numbers for each
// node.
ghost use Rattle.std.specs.Prelude.{◌≡◌};
ghost use Rattle.colours.specs.Descents.{descend};
ghost use Rattle.colour_tables.specs.ColourCells.{cell_table};
ghost use Rattle.colour_questions.specs.path_drops.Descended.{start_place, DescendArgs, descended_of};
ghost use Rattle.colour_questions.specs.path_drops.inner.Drops.{DropDone};

use crate::path_drops::drops::{Dropping, next_drop, seen_at};
use formats::layout::NODE_COLUMNS;

// The colour at the end, the drops and the links of all searches.
#[derive(Clone, Copy)]
pub struct Descended {
    pub colour: usize,
    pub drops: u32,
    pub links: u32,
}

// The next drop of colour c from the copy of node z, or from the top copy, down to node l.
fn drop_in(nums: &[u16], n: usize, c: usize, top: bool, z: usize, l: usize) -> Dropping
    requires { DescendArgs n c nums.now z l }
    ensures { DropDone n nums.now c (start_place top z) l result }
{
    let size = n * NODE_COLUMNS;
    let from = c * size;
    let table = &nums[from..from + size];
    if top {
        return next_drop(table, n, c, 0, l);
    }
    let seen = seen_at(table, n, c, z);
    next_drop(table, n, c, seen, l)
}

// From colour c in the copy of node z, or in the top copy, down to the copy of node l; None where a value read leads
// outside.
pub fn descend_from(
    nums: &[u16],
    n: usize,
    top: bool,
    z: usize,
    l: usize,
    c: usize,
) -> Option<Descended>
    requires { DescendArgs n c nums.now z l }
    ensures { result ≡ descended_of (descend (cell_table n nums.now) c (start_place top z) l c) }
{
    let mut colour = c;
    let mut above = top;
    let mut at = z;
    let mut drops: u32 = 0;
    let mut links: u32 = 0;
    while 0 < colour {
        match drop_in(nums, n, colour, above, at, l) {
            Dropping::Done => {
                return Some(Descended {
                    colour,
                    drops,
                    links,
                });
            }
            Dropping::Lost => {
                return None;
            }
            Dropping::Fell(x, d, k) => {
                colour = d;
                above = false;
                at = x;
                drops += 1;
                links += k;
            }
        }
    }
    Some(Descended {
        colour,
        drops,
        links,
    })
}
