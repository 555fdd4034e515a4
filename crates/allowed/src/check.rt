// The checks of both calls.
ghost use Rattle.std.specs.Prelude.{◌≡◌};
ghost use Rattle.formats.specs.Checks.{first_no};
ghost use Rattle.formats.specs.Refusals.{answer_number};
ghost use Rattle.allowed.specs.Answers.{node_room_checks};

use formats::bytes::read32;
use formats::inputs::check_rule_inputs;
use formats::refusals::Refusal;

// Checks 2 to 10, then 11: room for a number a node.
pub fn check_node_room(plan: &[u8], rules: &[u8], room: usize) -> Result<(), Refusal>
    ensures { answer_number result ≡ first_no (node_room_checks plan.now rules.now room) }
{
    check_rule_inputs(plan, rules)?;
    let n = read32(plan, 0);
    if room < n {
        return Err(Refusal::BufferShort);
    }
    Ok(())
}
