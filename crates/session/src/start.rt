// Start: checks 1, 17, 12 to 14 and 18, then the roots of the parts. On sound tables they are always found. The list
// stays whole in the record; only the roots are those of the nodes that change.
ghost use Rattle.std.specs.Prelude.{◌≡◌};
ghost use Rattle.model.specs.Calls as calls;
ghost use Rattle.session.specs.Answers.{start_answer};
ghost use Rattle.session.specs.Promises.{CallDone};
ghost use Rattle.formats.specs.Inputs.{inputs_of};
ghost use Rattle.session.specs.inner.Steps.{ListArgs, started_of, not_started};

use crate::answers::Started;
use crate::fill::{padded_labels, padded_nodes};
use crate::may::{allowed, may_start};
use crate::soundness::tables_sound;
use crate::state::{Head, Last, Phase, Session, Sizes};
use formats::buffers::rule_buffers_fit;
use formats::limits::PART_LIMIT;
use formats::lists::check_list;
use formats::refusals::Refusal;
use questions::changed_roots::roots_left;

// A running session with its question and no part handled. Nothing of an earlier question is left, but the last finished answer.
fn started(
    sizes: Sizes,
    last: Last,
    nodes: &[u16],
    labels: &[u8],
    parts: u8,
    roots: [u16; PART_LIMIT],
) -> Session
    requires { ListArgs nodes.now labels.now }
    ensures { result ≡ started_of sizes last nodes.now labels.now parts roots }
{
    let states = [0u8; PART_LIMIT];
    let listed = padded_nodes(nodes);
    let changes = padded_labels(labels);
    let m = nodes.len() as u8;
    let head = Head {
        phase: Phase::Running,
        yes: false,
        sizes,
        m,
        parts,
        handled: 0,
        links: 0,
        passed: 0,
        last,
    };
    Session {
        head,
        nodes: listed,
        labels: changes,
        roots,
        states,
    }
}

// A refusal, with the record as it was.
fn refused(session: Session, refusal: Refusal) -> Started
    ensures { result ≡ not_started session refusal }
{
    Started {
        answer: Err(refusal),
        session,
    }
}

impl Session {
    // Asks a question: returns the number of its parts.
    pub fn start(
        self,
        plan: &[u8],
        rules: &[u8],
        node_table: &[u16],
        state_table: &[u8],
        nodes: &[u16],
        labels: &[u8],
    ) -> Started
        ensures { CallDone self
            (calls.start (inputs_of plan.now rules.now node_table.now state_table.now)
            nodes.now labels.now)
            (start_answer result.answer) result.session }
    {
        let h = self.head;
        let phase = h.phase;
        let may = may_start(phase);
        if !allowed(may, h, &self.nodes, &self.labels, &self.roots, &self.states) {
            return refused(self, Refusal::SessionState);
        }
        let n = h.sizes.n as usize;
        let s = h.sizes.s as usize;
        let k = h.sizes.k as usize;
        if !rule_buffers_fit(
            n,
            s,
            k,
            plan.len(),
            rules.len(),
            node_table.len(),
            state_table.len(),
        ) {
            return refused(self, Refusal::LentLength);
        }
        if let Err(refusal) = check_list(n, k, nodes, labels) {
            return refused(self, refusal);
        }
        if !tables_sound(n, s, k, plan, rules, node_table, state_table) {
            return refused(self, Refusal::LentValue);
        }
        let found = roots_left(n, plan, node_table, nodes, labels);
        let parts = found.count as u8;
        let roots = found.nodes;
        let session = started(h.sizes, h.last, nodes, labels, parts, roots);
        Started {
            answer: Ok(parts),
            session,
        }
    }
}
