// The branch question by colours: the state after the word down to the lower node, whether it is marked, the drops on
// the way and the links of the searches for them.
ghost use Rattle.std.specs.Prelude.{◌≡◌};
ghost use Rattle.formats.specs.Refusals.{told};
ghost use Rattle.branches.specs.declared.answers.Reading.TheVariants.{WithUpper, BelowUpper};
ghost use Rattle.colour_questions.specs.branch.Question.{colour_buffers_fit, coloured_on, colour_answer};
ghost use Rattle.colour_questions.specs.branch.Promise.{ColourAskDone};
ghost use Rattle.colour_questions.specs.branch.inner.Steps.{AnswerArgs};

use crate::branch::answers::ColourAsked;
use crate::branch::steps::{descend_to, finish, start_colour, start_place};
use branches::answers::Reading;
use colour_tables::branch::build::colours_fit;
use formats::buffers::headers_fit;
use formats::bytes::read32;
use formats::layout::{BRANCH_HEAD, LABEL_COUNT_AT, NODE_COLUMNS, PLAN_HEAD};
use formats::refusals::Refusal;
use tables::node_tables::moves::is_below;

// Check 17: N, S and K are those of the headers.
fn colour_buffers_fit(
    plan: &[u8],
    branch: &[u8],
    node_table: usize,
    numbers: usize,
    bytes: usize,
) -> bool
    ensures { result ≡ colour_buffers_fit plan.now branch.now node_table numbers bytes }
{
    if !headers_fit(plan, branch, BRANCH_HEAD) {
        return false;
    }
    let n = read32(plan, 0);
    let s = read32(branch, 0);
    let k = read32(branch, LABEL_COUNT_AT);
    if plan.len() != PLAN_HEAD + 2 * n {
        return false;
    }
    if branch.len() != BRANCH_HEAD + s * k + s {
        return false;
    }
    if node_table < n * NODE_COLUMNS {
        return false;
    }
    colours_fit(n, s, numbers, bytes)
}

// The answer where 17, 13 and 16 pass.
fn answer_colours(
    reading: Reading,
    plan: &[u8],
    branch: &[u8],
    node_table: &[u16],
    numbers: &[u16],
    bytes: &[u8],
    u: usize,
    l: usize,
) -> Result<ColourAsked, Refusal>
    requires { AnswerArgs plan.now branch.now node_table.now numbers.now bytes.now u l }
    ensures { told result ≡ colour_answer 0 (coloured_on reading plan.now branch.now
        node_table.now
        numbers.now bytes.now u l) }
{
    let n = read32(plan, 0);
    let s = read32(branch, 0);
    let k = read32(branch, LABEL_COUNT_AT);
    let z = start_place(reading, node_table, n, u);
    if n < z {
        return Err(Refusal::LentValue);
    }
    let c = start_colour(bytes, n, s, z);
    if s <= c {
        return Err(Refusal::LentValue);
    }
    match descend_to(numbers, n, z, l, c) {
        None => Err(Refusal::LentValue),
        Some(end) => finish(
            bytes,
            &branch[BRANCH_HEAD + s * k..],
            s,
            l,
            end.colour,
            end.drops,
            end.links,
        ),
    }
}

// A branch question by colours in either reading. It takes N, S and K from the headers passed in and makes the checks
// 17, 13, 16 and 18 in this order.
fn ask(
    reading: Reading,
    plan: &[u8],
    branch: &[u8],
    node_table: &[u16],
    numbers: &[u16],
    bytes: &[u8],
    upper: u32,
    lower: u32,
) -> Result<ColourAsked, Refusal>
    ensures { ColourAskDone reading plan.now branch.now node_table.now
        numbers.now bytes.now upper lower result }
{
    if !colour_buffers_fit(plan, branch, node_table.len(), numbers.len(), bytes.len()) {
        return Err(Refusal::LentLength);
    }
    let n = read32(plan, 0);
    let u = upper as usize;
    if n <= u {
        return Err(Refusal::Node);
    }
    let l = lower as usize;
    if n <= l {
        return Err(Refusal::Node);
    }
    if !is_below(node_table, u, l) {
        return Err(Refusal::NotBelow);
    }
    answer_colours(reading, plan, branch, node_table, numbers, bytes, u, l)
}

// A branch question by colours: the word from below the upper node down to the lower.
pub fn ask_colours(
    plan: &[u8],
    branch: &[u8],
    node_table: &[u16],
    numbers: &[u16],
    bytes: &[u8],
    upper: u32,
    lower: u32,
) -> Result<ColourAsked, Refusal>
    ensures { ColourAskDone BelowUpper plan.now branch.now node_table.now
        numbers.now bytes.now upper lower result }
{
    ask(
        Reading::BelowUpper,
        plan,
        branch,
        node_table,
        numbers,
        bytes,
        upper,
        lower,
    )
}

// The same with the upper node's label: the word from the upper node down to the lower, both included.
pub fn ask_colours_with_upper(
    plan: &[u8],
    branch: &[u8],
    node_table: &[u16],
    numbers: &[u16],
    bytes: &[u8],
    upper: u32,
    lower: u32,
) -> Result<ColourAsked, Refusal>
    ensures { ColourAskDone WithUpper plan.now branch.now node_table.now
        numbers.now bytes.now upper lower result }
{
    ask(
        Reading::WithUpper,
        plan,
        branch,
        node_table,
        numbers,
        bytes,
        upper,
        lower,
    )
}
