// Check 1: which calls may be made.
//     may_load, may_start, may_advance   the states that allow a call; Read depends on whether there is an answer
//     allowed                            and the record can be a session's
ghost use Rattle.std.specs.Prelude.{◌≡◌, ◌&&◌};
ghost use Rattle.model.specs.Calls.{may_load, may_start, is_running};
ghost use Rattle.session.specs.Records.{phase_of, whole, valid};

use crate::state::{Head, Phase};
use crate::valid::fits;
use formats::limits::{CHANGE_LIMIT, PART_LIMIT};

// Load: unless running.
#[tactic(auto, unfolding(crate::specs::Records::phase_of, model::specs::Calls::may_load))]
pub fn may_load(phase: Phase) -> bool
    ensures { result ≡ may_load (phase_of phase) }
{
    !matches!(phase, Phase::Running)
}

// Start: in loaded or answered.
#[tactic(auto, unfolding(crate::specs::Records::phase_of, model::specs::Calls::may_start))]
pub fn may_start(phase: Phase) -> bool
    ensures { result ≡ may_start (phase_of phase) }
{
    matches!(phase, Phase::Loaded | Phase::Answered)
}

// Advance and Cancel: in running.
#[tactic(auto, unfolding(crate::specs::Records::phase_of, model::specs::Calls::is_running))]
pub fn may_advance(phase: Phase) -> bool
    ensures { result ≡ is_running (phase_of phase) }
{
    matches!(phase, Phase::Running)
}

// Check 1 of a call that the record's state, or for Read its last finished answer, allows or not. The record is given
// as its head and references to its four arrays; it is tested only where the call is allowed.
pub fn allowed<'a>(
    may: bool,
    h: Head,
    nodes: &'a [u16; CHANGE_LIMIT],
    labels: &'a [u8; CHANGE_LIMIT],
    roots: &'a [u16; PART_LIMIT],
    states: &'a [u8; PART_LIMIT],
) -> bool
    ensures { result
        ≡ (valid (whole h nodes.now labels.now roots.now states.now) && may) }
{
    if !may {
        return false;
    }
    fits(h, nodes, labels, roots, states)
}
