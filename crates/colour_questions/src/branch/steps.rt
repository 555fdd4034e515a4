// The steps of a branch question by colours: the copy in which its word begins, the colour of state 0 there, the way
// down, and the state at its end. A copy is the number of its node; the top copy is n; a number above n means that a
// value read led outside the plan.
ghost use Rattle.std.specs.Prelude.{◌≡◌};
ghost use Rattle.formats.specs.Refusals.{told};
ghost use Rattle.tables.specs.Climbs.{below};
ghost use Rattle.colours.specs.Descents.{descend};
ghost use Rattle.colour_tables.specs.ColourCells.{cell_table};
ghost use Rattle.colour_questions.specs.path_drops.Descended.{descended_of};
ghost use Rattle.branches.specs.declared.answers.Reading.TheVariants.{WithUpper};
ghost use Rattle.colour_questions.specs.branch.Question.{start_on, colour_in};
ghost use Rattle.colour_questions.specs.branch.inner.Steps.{place_at, numbered_place, finish_on, StartArgs, RowArgs};
ghost use Rattle.colour_questions.specs.branch.inner.Steps.{WayArgs, EndArgs};

use crate::branch::answers::ColourAsked;
use crate::path_drops::descend::{Descended, descend_from};
use branches::answers::Reading;
use colour_tables::rows::places::place_of;
use formats::refusals::Refusal;
use tables::node_tables::moves::parent_at;

// The copy above node u: its parent's, or the top copy above the root.
fn place_above(node_table: &[u16], n: usize, u: usize) -> usize
    requires { StartArgs node_table.now n u }
    ensures { start_on WithUpper n node_table.now u ≡ numbered_place n result }
{
    if u + 1 == n {
        return n;
    }
    let p = parent_at(node_table, u);
    if n <= p {
        return n + 1;
    }
    p
}

// The copy in which the word begins.
pub fn start_place(reading: Reading, node_table: &[u16], n: usize, u: usize) -> usize
    requires { StartArgs node_table.now n u }
    ensures { start_on reading n node_table.now u ≡ numbered_place n result }
{
    match reading {
        Reading::WithUpper => place_above(node_table, n, u),
        Reading::BelowUpper => u,
    }
}

// The colour of state 0 in copy z; s or above where no colour has it.
pub fn start_colour(bytes: &[u8], n: usize, s: usize, z: usize) -> usize
    requires { RowArgs bytes.now n s z }
    ensures { colour_in s bytes.now (place_at n z) ≡ below s result }
{
    if z == n {
        return 0;
    }
    place_of(&bytes[z * s..z * s + s], 0)
}

// From colour c in copy z down to the copy of node l; None where a value read leads outside.
pub fn descend_to(numbers: &[u16], n: usize, z: usize, l: usize, c: usize) -> Option<Descended>
    requires { WayArgs n c numbers.now z l }
    ensures { result ≡ descended_of (descend (cell_table n numbers.now) c (place_at n z) l c) }
{
    if z == n {
        return descend_from(numbers, n, true, l, l, c);
    }
    descend_from(numbers, n, false, z, l, c)
}

// What is answered at the end of the way, colour c, drops and links: the state of that colour in the copy of node l.
pub fn finish(
    bytes: &[u8],
    marks: &[u8],
    s: usize,
    l: usize,
    c: usize,
    drops: u32,
    links: u32,
) -> Result<ColourAsked, Refusal>
    requires { EndArgs bytes.now marks.now s l c }
    ensures { told result ≡ finish_on s marks.now bytes.now l c drops links }
{
    let q = bytes[l * s + c];
    if s <= q as usize {
        return Err(Refusal::LentValue);
    }
    Ok(ColourAsked {
        state: q,
        marked: marks[q as usize] == 1,
        drops,
        links,
    })
}
