// Load: check 1, then the build with its checks 2 to 11.
ghost use Rattle.session.specs.Answers.{call_answer};
ghost use Rattle.session.specs.Promises.{LoadDone};
ghost use Rattle.formats.specs.Inputs.{inputs_of};

use crate::answers::Called;
use crate::loaded::loaded_from;
use crate::may::{allowed, may_load};
use crate::state::Session;
use formats::refusals::Refusal;
use tables::build::build_tables;

impl Session {
    // Builds the tables of a plan and rules into the caller's buffers.
    pub fn load(
        self,
        plan: &[u8],
        rules: &[u8],
        node_table: &mut [u16],
        state_table: &mut [u8],
    ) -> Called
        ensures { LoadDone self
            (inputs_of plan.now rules.now node_table.old state_table.old)
            (call_answer result.answer) result.session node_table.new state_table.new }
    {
        let h = self.head;
        let phase = h.phase;
        let may = may_load(phase);
        if !allowed(may, h, &self.nodes, &self.labels, &self.roots, &self.states) {
            return Called {
                answer: Err(Refusal::SessionState),
                session: self,
            };
        }
        match build_tables(plan, rules, node_table, state_table) {
            Ok(()) => {
                let session = loaded_from(plan, rules);
                return Called {
                    answer: Ok(()),
                    session,
                };
            }
            Err(refusal) => {
                return Called {
                    answer: Err(refusal),
                    session: self,
                };
            }
        }
    }
}
