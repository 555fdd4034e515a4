// The exported calls on the planner's files, each thin over a call of the layers below: its result is the answer's
// number, 0 where it is accepted.
ghost use Rattle.planner.specs.home.Home.{HomeDone};
ghost use Rattle.planner.specs.out.Out.{OutDone};

use crate::numbers::number;
use planner::home::convert::planner_of_plan;
use planner::out::convert::plan_of_planner;

// Our plan of a planner's file, and the place of each of its nodes.
pub fn whatif_plan_of_planner(file: &[u8], plan: &mut [u8], places: &mut [u16]) -> u32
    ensures { OutDone file.now plan.old places.old result
        plan.new places.new }
{
    number(plan_of_planner(file, plan, places))
}

// The planner's file of our plan.
pub fn whatif_planner_of_plan(plan: &[u8], file: &mut [u8]) -> u32
    ensures { HomeDone plan.now file.old result file.new }
{
    number(planner_of_plan(plan, file))
}
