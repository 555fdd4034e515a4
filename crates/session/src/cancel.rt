// Cancel: check 1. It needs only the record.
ghost use Rattle.model.specs.Calls as calls;
ghost use Rattle.session.specs.Answers.{call_answer};
ghost use Rattle.session.specs.Promises.{CallDone};

use crate::answers::Called;
use crate::loaded::loaded;
use crate::may::{allowed, may_advance};
use crate::state::Session;
use formats::refusals::Refusal;

impl Session {
    // Ends a question: the record is as after a first Load, but for the last finished answer, which is kept.
    pub fn cancel(self) -> Called
        ensures { CallDone self calls.cancel (call_answer result.answer) result.session }
    {
        let h = self.head;
        let phase = h.phase;
        let may = may_advance(phase);
        if !allowed(may, h, &self.nodes, &self.labels, &self.roots, &self.states) {
            return Called {
                answer: Err(Refusal::SessionState),
                session: self,
            };
        }
        let session = loaded(h.sizes, h.last);
        Called {
            answer: Ok(()),
            session,
        }
    }
}
