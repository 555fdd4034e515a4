// Trials of target states at a child, on the caller's numbers and copies.
ghost use Rattle.std.specs.Prelude.{◌≡◌, ◌^◌, ◌<◌};
ghost use Rattle.colour_tables.specs.ColourCells.{copy_row, cell_table};
ghost use Rattle.colour_questions.specs.target_states.Trials.{TargetArgs, TestDone, TargetsArgs, TargetsDone};

use crate::path_drops::descend::descend_from;
use colour_tables::rows::places::place_of;
use colour_tables::sets::bits::bit_of;

// The state found, with the drops of all trials and the links of their searches.
#[derive(Clone, Copy)]
pub struct Trial {
    pub state: u8,
    pub drops: u32,
    pub links: u32,
}

// One trial: whether the set that the target leads down to holds the state, with its drops and links.
#[derive(Clone, Copy)]
pub struct Tested {
    pub holds: bool,
    pub drops: u32,
    pub links: u32,
}

// The set of state x alone.
fn single(x: usize) -> u8
    requires { x < 8 }
    ensures { result ≡ 2 ^ x }
{
    1u8 << x
}

// The trial of target state x at node c, for state q at node w below it; the copies have m sets each. None
// where it has no end.
fn try_target(
    numbers: &[u16],
    copies: &[u8],
    n: usize,
    m: usize,
    c: usize,
    w: usize,
    q: u8,
    x: usize,
) -> Option<Tested>
    requires { TargetArgs n m numbers.now copies.now c w q x }
    ensures { TestDone (cell_table n numbers.now) (copy_row m copies.now) c w q x result }
{
    let k = place_of(&copies[c * m..c * m + m], single(x));
    if m <= k {
        return None;
    }
    let end = descend_from(numbers, n, false, c, w, k)?;
    let set = copies[w * m + end.colour];
    Some(Tested {
        holds: bit_of(set, q) == 1,
        drops: end.drops,
        links: end.links,
    })
}

// The target states at node c in rising order, s of them, until the set that one leads down to at node w holds q; None
// where none does, or one has no end.
pub fn try_targets(
    numbers: &[u16],
    copies: &[u8],
    n: usize,
    s: usize,
    m: usize,
    c: usize,
    w: usize,
    q: u8,
) -> Option<Trial>
    requires { TargetsArgs n s m numbers.now copies.now c w q }
    ensures { TargetsDone s (cell_table n numbers.now) (copy_row m copies.now) c w q result }
{
    let mut drops: u32 = 0;
    let mut links: u32 = 0;
    for x in 0..s {
        let t = try_target(numbers, copies, n, m, c, w, q, x)?;
        drops += t.drops;
        links += t.links;
        if t.holds {
            return Some(Trial {
                state: x as u8,
                drops,
                links,
            });
        }
    }
    None
}
