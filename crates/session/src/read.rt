// Read: check 1. It needs only the record.
ghost use Rattle.std.specs.Prelude.{◌≡◌};
ghost use Rattle.model.specs.Calls as calls;
ghost use Rattle.session.specs.Answers.{read_answer};
ghost use Rattle.session.specs.Promises.{answer_on};

use crate::answers::Outcome;
use crate::may::allowed;
use crate::state::Session;
use formats::refusals::Refusal;

impl Session {
    // Returns the last finished answer: the root's state, the yes or no, the parts, the links, the nodes passed over.
    pub fn read(self) -> Result<Outcome, Refusal>
        ensures { read_answer result ≡ answer_on self calls.read }
    {
        let h = self.head;
        let last = h.last;
        let may = last.present;
        if !allowed(may, h, &self.nodes, &self.labels, &self.roots, &self.states) {
            return Err(Refusal::SessionState);
        }
        let outcome = last.outcome;
        Ok(outcome)
    }
}
