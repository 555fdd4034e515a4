// All parts of a question, in rising node number, each by the session's own step.
ghost use Rattle.std.specs.Prelude.{◌≡◌, []};
ghost use Rattle.tables.specs.Climbs.{climbed_of, reached};
ghost use Rattle.questions.specs.PartAnswers.{view_in};
ghost use Rattle.whole_questions.specs.Question.{handled_from};
ghost use Rattle.whole_questions.specs.inner.Args.{AllArgs};

use questions::part::part;
use tables::answers::{Climbed, Reached};

// The state of the last root, the links of all parts and the nodes that they passed over.
pub fn all_parts(
    n: usize,
    s: usize,
    k: usize,
    plan: &[u8],
    rules: &[u8],
    node_table: &[u16],
    state_table: &[u8],
    roots: &[u16],
    nodes: &[u16],
    labels: &[u8],
) -> Climbed
    requires { AllArgs n s k plan.now rules.now node_table.now state_table.now roots.now nodes.now
        labels.now }
    ensures { result ≡ climbed_of (handled_from (view_in n s k plan.now rules.now
        node_table.now state_table.now) nodes.now labels.now [] []
        (reached 0 0 0) roots.now) }
{
    let mut states = [0u8; 254];
    let mut last: u8 = 0;
    let mut links: u32 = 0;
    let mut passed: u32 = 0;
    for i in 0..roots.len() {
        match part(
            n,
            s,
            k,
            plan,
            rules,
            node_table,
            state_table,
            roots,
            &states[..i],
            nodes,
            labels,
        ) {
            Climbed::Reached(x) => {
                last = x.state;
                states[i] = last;
                links = links + x.links;
                passed = passed + x.passed;
            }
            Climbed::OutOfRange => {
                return Climbed::OutOfRange;
            }
        }
    }
    Climbed::Reached(Reached {
        state: last,
        links,
        passed,
    })
}
