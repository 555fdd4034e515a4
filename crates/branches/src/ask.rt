// The branch question: the state after the word down to the lower node, whether it is marked, the links of the climb, and
// the nodes that it passed over.
ghost use Rattle.std.specs.Prelude.{◌≡◌, ◌+◌, ◌*◌, ◌≤◌, length};
ghost use Rattle.tables.specs.node_tables.Cells.{is_in_subtree_on};
ghost use Rattle.branches.specs.declared.answers.Reading.TheVariants.{WithUpper, BelowUpper};
ghost use Rattle.branches.specs.Question.{branch_on, branch_answer};
ghost use Rattle.branches.specs.Promise.{AskDone};
ghost use Rattle.branches.specs.inner.Finish.{first_of, numbered, told_of, StateIn, FirstArgs, AnswerArgs};

use crate::answers::{Branched, Reading};
use formats::buffers::branch_buffers_fit;
use formats::bytes::read32;
use formats::layout::{BRANCH_HEAD, LABEL_COUNT_AT, PLAN_HEAD};
use formats::refusals::Refusal;
use tables::answers::Climbed;
use tables::node_tables::moves::{depth_at, is_below};
use tables::replays::replay_climb;

// The state after the upper node's label, from state 0; S or above where the label or that state is outside.
fn after_upper(labels: &[u8], steps: &[u8], s: usize, k: usize, u: usize) -> usize
    requires { FirstArgs s k labels.now steps.now u }
    ensures { first_of WithUpper s k labels.now steps.now u ≡ numbered s result }
{
    let a = labels[u] as usize;
    if k <= a {
        return s;
    }
    steps[a] as usize
}

// The state that the word below the upper node starts in; S or above where there is none.
fn first_state(reading: Reading, labels: &[u8], steps: &[u8], s: usize, k: usize, u: usize) -> usize
    requires { FirstArgs s k labels.now steps.now u }
    ensures { first_of reading s k labels.now steps.now u ≡ numbered s result }
{
    match reading {
        Reading::WithUpper => after_upper(labels, steps, s, k, u),
        Reading::BelowUpper => 0,
    }
}

// The answer for the end of a climb, with the mark of its state.
fn finish_answer(end: Climbed, marks: &[u8]) -> Result<Branched, Refusal>
    requires { StateIn (length marks.now) end }
    ensures { result ≡ told_of marks.now end }
{
    match end {
        Climbed::Reached(x) => {
            let mark = marks[x.state as usize];
            Ok(Branched {
                state: x.state,
                marked: mark == 1,
                links: x.links,
                passed: x.passed,
            })
        }
        Climbed::OutOfRange => Err(Refusal::LentValue),
    }
}

// The answer where 17, 13 and 16 pass.
fn answer_branch(
    reading: Reading,
    plan: &[u8],
    branch: &[u8],
    node_table: &[u16],
    state_table: &[u8],
    u: usize,
    l: usize,
) -> Result<Branched, Refusal>
    requires { AnswerArgs plan.now branch.now node_table.now state_table.now u l }
    ensures { result ≡ branch_answer 0 (branch_on reading plan.now branch.now node_table.now
        state_table.now u l) }
{
    let n = read32(plan, 0);
    let s = read32(branch, 0);
    let k = read32(branch, LABEL_COUNT_AT);
    let labels = &plan[PLAN_HEAD..PLAN_HEAD + n];
    let steps = &branch[BRANCH_HEAD..BRANCH_HEAD + s * k];
    let to = depth_at(node_table, u);
    let q = first_state(reading, labels, steps, s, k, u);
    if s <= q {
        return Err(Refusal::LentValue);
    }
    let end = replay_climb(labels, steps, node_table, state_table, n, s, k, l, to, q);
    finish_answer(end, &branch[BRANCH_HEAD + s * k..])
}

// A branch question in either reading. It takes N, S and K from the given headers and asks 17, 13, 16 and 18 in this
// order.
fn ask(
    reading: Reading,
    plan: &[u8],
    branch: &[u8],
    node_table: &[u16],
    state_table: &[u8],
    upper: u32,
    lower: u32,
) -> Result<Branched, Refusal>
    ensures { AskDone reading plan.now branch.now node_table.now state_table.now
        upper lower result }
{
    if !branch_buffers_fit(plan, branch, node_table, state_table) {
        return Err(Refusal::LentLength);
    }
    let n = read32(plan, 0);
    let u = upper as usize;
    if n <= u {
        return Err(Refusal::Node);
    }
    let l = lower as usize;
    if n <= l {
        return Err(Refusal::Node);
    }
    if !is_below(node_table, u, l) {
        return Err(Refusal::NotBelow);
    }
    answer_branch(reading, plan, branch, node_table, state_table, u, l)
}

// A branch question: the word from below the upper node down to the lower. The same node twice is the empty word, and the
// mark of state 0 decides.
pub fn ask_branch(
    plan: &[u8],
    branch: &[u8],
    node_table: &[u16],
    state_table: &[u8],
    upper: u32,
    lower: u32,
) -> Result<Branched, Refusal>
    ensures { AskDone BelowUpper plan.now branch.now node_table.now state_table.now
        upper lower result }
{
    ask(
        Reading::BelowUpper,
        plan,
        branch,
        node_table,
        state_table,
        upper,
        lower,
    )
}

// The same with the upper node's label: the word from the upper node down to the lower, both included.
pub fn ask_branch_with_upper(
    plan: &[u8],
    branch: &[u8],
    node_table: &[u16],
    state_table: &[u8],
    upper: u32,
    lower: u32,
) -> Result<Branched, Refusal>
    ensures { AskDone WithUpper plan.now branch.now node_table.now state_table.now
        upper lower result }
{
    ask(
        Reading::WithUpper,
        plan,
        branch,
        node_table,
        state_table,
        upper,
        lower,
    )
}
