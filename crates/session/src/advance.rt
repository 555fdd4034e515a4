// Advance: checks 1 and 17, then one part; 18 where it has none.
ghost use Rattle.std.specs.Prelude.{◌≤◌, ◌≡◌, take};
ghost use Rattle.std.proofs.Math.Option.{some};
ghost use Rattle.tables.specs.declared.answers.Reached.{Reached};
ghost use Rattle.questions.specs.PartAnswers.{part_given};
ghost use Rattle.tables.specs.Climbs.{climbed_of};
ghost use Rattle.model.specs.Calls as calls;
ghost use Rattle.session.specs.Answers.{advance_answer};
ghost use Rattle.session.specs.Promises.{CallDone};
ghost use Rattle.session.specs.Records.{whole};
ghost use Rattle.session.specs.inner.Shapes.{Shaped};
ghost use Rattle.formats.specs.Limits.{node_limit};
ghost use Rattle.formats.specs.Inputs.{inputs_of};
ghost use Rattle.session.specs.inner.Steps.{NextArgs, StepArgs, MarkArgs, HandleArgs, marked_in, stepped_head, step_by};
ghost use Rattle.session.specs.inner.Steps.{answer_of, refused_step, StepFound};

use crate::answers::{AdvanceStep, Advanced, Outcome, Progress};
use crate::may::{allowed, may_advance};
use crate::state::{Head, Last, Phase, Session};
use formats::buffers::rule_buffers_fit;
use formats::layout::RULES_HEAD;
use formats::limits::{CHANGE_LIMIT, PART_LIMIT};
use formats::refusals::Refusal;
use formats::rules::inner_count;
use questions::part::part;
use tables::answers::Climbed;

// The part that comes next: with the record's lists, without the zeros behind them.
fn next_part<'a>(
    h: Head,
    plan: &[u8],
    rules: &[u8],
    node_table: &[u16],
    state_table: &[u8],
    nodes: &'a [u16],
    labels: &'a [u8],
    roots: &'a [u16],
    states: &'a [u8],
) -> Climbed
    requires { NextArgs (whole h nodes.now labels.now roots.now states.now) }
    ensures value { result ≡ climbed_of (part_given h.sizes.n h.sizes.s h.sizes.k plan.now rules.now node_table.now
        state_table.now (take h.parts roots.now) (take h.handled states.now)
        (take h.m nodes.now) (take h.m labels.now)) }
    ensures passed_le_node_limit { (y : Reached)
        → part_given h.sizes.n h.sizes.s h.sizes.k plan.now rules.now node_table.now
        state_table.now (take h.parts roots.now) (take h.handled states.now)
        (take h.m nodes.now) (take h.m labels.now) ≡ some y → y.passed ≤ node_limit }
{
    let p = h.parts as usize;
    let done = h.handled as usize;
    let m = h.m as usize;
    part(
        h.sizes.n as usize,
        h.sizes.s as usize,
        h.sizes.k as usize,
        plan,
        rules,
        node_table,
        state_table,
        &roots[..p],
        &states[..done],
        &nodes[..m],
        &labels[..m],
    )
}

// Whether the mark of state q is 1.
fn is_marked(rules: &[u8], s: usize, k: usize, q: usize) -> bool
    requires { MarkArgs rules.now s k q }
    ensures { result ≡ marked_in s k rules.now q }
{
    rules[RULES_HEAD + k + inner_count(s, k) + q] == 1
}

// A head with one more part handled, and the last finished answer as given.
fn stepped(h: Head, phase: Phase, links: u32, passed: u32, yes: bool, last: Last) -> Head
    requires { StepArgs h links passed }
    ensures { result ≡ stepped_head h phase links passed yes last }
{
    let sizes = h.sizes;
    Head {
        phase,
        yes,
        sizes,
        m: h.m,
        parts: h.parts,
        handled: h.handled + 1,
        links: h.links + links,
        passed: h.passed + passed,
        last,
    }
}

// The answer of a head whose last part has state q, these links and these nodes passed over.
fn answer_of(h: Head, q: u8, links: u32, passed: u32, yes: bool) -> Last
    requires { StepArgs h links passed }
    ensures { result ≡ answer_of h q links passed yes }
{
    let all = h.links + links;
    let over = h.passed + passed;
    let outcome = Outcome {
        state: q,
        yes,
        parts: h.parts,
        links: all,
        passed: over,
    };
    Last {
        present: true,
        outcome,
    }
}

// One more part, of state q: more, or finished at the last part, with its yes or no by the rules given now. Only the
// last part makes a new answer.
fn handled(h: Head, rules: &[u8], q: u8, links: u32, passed: u32) -> AdvanceStep
    requires { HandleArgs h rules.now q links passed }
    ensures { result ≡ step_by h rules.now q links passed }
{
    if h.handled + 1 == h.parts {
        let yes = is_marked(rules, h.sizes.s as usize, h.sizes.k as usize, q as usize);
        let last = answer_of(h, q, links, passed, yes);
        let head = stepped(h, Phase::Answered, links, passed, yes, last);
        return AdvanceStep {
            answer: Ok(Progress::Finished),
            head,
            stored: true,
            state: q,
        };
    }
    let last = h.last;
    let head = stepped(h, Phase::Running, links, passed, false, last);
    AdvanceStep {
        answer: Ok(Progress::More),
        head,
        stored: true,
        state: q,
    }
}

// A refusal: nothing is altered.
fn refused_step(h: Head, refusal: Refusal) -> AdvanceStep
    ensures { result ≡ refused_step h refusal }
{
    let answer = Err(refusal);
    AdvanceStep {
        answer,
        head: h,
        stored: false,
        state: 0,
    }
}

// What an advance does to a record that is given as its head and references to its four arrays.
fn next_step<'a>(
    h: Head,
    plan: &[u8],
    rules: &[u8],
    node_table: &[u16],
    state_table: &[u8],
    nodes: &'a [u16; CHANGE_LIMIT],
    labels: &'a [u8; CHANGE_LIMIT],
    roots: &'a [u16; PART_LIMIT],
    states: &'a [u8; PART_LIMIT],
) -> AdvanceStep
    requires { Shaped (whole h nodes.now labels.now roots.now states.now) }
    ensures { StepFound (whole h nodes.now labels.now roots.now states.now)
        (calls.advance (inputs_of plan.now rules.now node_table.now state_table.now)) result }
{
    let phase = h.phase;
    let may = may_advance(phase);
    if !allowed(may, h, nodes, labels, roots, states) {
        return refused_step(h, Refusal::SessionState);
    }
    let n = h.sizes.n as usize;
    let s = h.sizes.s as usize;
    let k = h.sizes.k as usize;
    if !rule_buffers_fit(
        n,
        s,
        k,
        plan.len(),
        rules.len(),
        node_table.len(),
        state_table.len(),
    ) {
        return refused_step(h, Refusal::LentLength);
    }
    match next_part(
        h,
        plan,
        rules,
        node_table,
        state_table,
        nodes,
        labels,
        roots,
        states,
    ) {
        Climbed::Reached(found) => {
            return handled(h, rules, found.state, found.links, found.passed);
        }
        Climbed::OutOfRange => {
            return refused_step(h, Refusal::LentValue);
        }
    }
}

impl Session {
    // What an advance does, without the record that it leaves: nothing is copied for a caller that stores it elsewhere.
    pub fn advance_step(
        self,
        plan: &[u8],
        rules: &[u8],
        node_table: &[u16],
        state_table: &[u8],
    ) -> AdvanceStep
        ensures { StepFound self
            (calls.advance (inputs_of plan.now rules.now node_table.now state_table.now)) result }
    {
        next_step(
            self.head,
            plan,
            rules,
            node_table,
            state_table,
            &self.nodes,
            &self.labels,
            &self.roots,
            &self.states,
        )
    }

    // Handles the next part. The record is made at one place, so that it is copied once.
    pub fn advance(
        self,
        plan: &[u8],
        rules: &[u8],
        node_table: &[u16],
        state_table: &[u8],
    ) -> Advanced
        ensures { CallDone self
            (calls.advance (inputs_of plan.now rules.now node_table.now state_table.now))
            (advance_answer result.answer) result.session }
    {
        let h = self.head;
        let step = self.advance_step(plan, rules, node_table, state_table);
        let nodes = self.nodes;
        let labels = self.labels;
        let roots = self.roots;
        let mut states = self.states;
        let at = h.handled as usize;
        if step.stored {
            states[at] = step.state;
        }
        let answer = step.answer;
        let head = step.head;
        let session = Session {
            head,
            nodes,
            labels,
            roots,
            states,
        };
        Advanced { answer, session }
    }
}
