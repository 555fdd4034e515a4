// The planner's files.
ghost use Rattle.planner.specs.home.Home.{HomeDone};
ghost use Rattle.planner.specs.out.Out.{OutDone};

// Our plan of a planner's file, and the place of each of its nodes.
#[unsafe(no_mangle)]
pub extern "C" fn whatif_plan_of_planner(file: &[u8], plan: &mut [u8], places: &mut [u16]) -> u32
    ensures { OutDone file.now plan.old places.old result
        plan.new places.new }
{
    capi::planner_calls::whatif_plan_of_planner(file, plan, places)
}

// The planner's file of our plan.
#[unsafe(no_mangle)]
pub extern "C" fn whatif_planner_of_plan(plan: &[u8], file: &mut [u8]) -> u32
    ensures { HomeDone plan.now file.old result file.new }
{
    capi::planner_calls::whatif_planner_of_plan(plan, file)
}
