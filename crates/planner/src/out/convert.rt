// From a planner's file to our plan: one call, without recursion and without memory beyond its buffers.
ghost use Rattle.formats.specs.Refusals.{answer_number};
ghost use Rattle.planner.specs.out.Out.{OutArgs, OutWritten, OutDone};

use crate::out::check::check_out;
use crate::out::lay::write_plan;
use crate::out::places::place_nodes;
use formats::bytes::read32;
use formats::layout::PLAN_HEAD;
use formats::refusals::Refusal;

// Writes plan and places of a file of n nodes that passes.
fn write_out(file: &[u8], n: usize, plan: &mut [u8], places: &mut [u16])
    requires { OutArgs file.now n plan.old places.old }
    ensures { OutWritten file.now plan.old places.old plan.new
        places.new }
{
    place_nodes(&file[PLAN_HEAD + n..], plan, places);
    write_plan(&file[PLAN_HEAD..PLAN_HEAD + n], places, plan);
}

// Our plan of a planner's file, and the place of each planner's node in it; or 19, 20 or 21, and nothing is written.
// The excess of longer buffers is untouched.
pub fn plan_of_planner(file: &[u8], plan: &mut [u8], places: &mut [u16]) -> Result<(), Refusal>
    ensures { OutDone file.now plan.old places.old (answer_number result) plan.new
        places.new }
{
    check_out(file, plan.len(), places.len())?;
    let n = read32(file, 0);
    write_out(file, n, plan, places);
    Ok(())
}
