// From our plan to a planner's file: one call, without recursion and without memory beyond its buffers.
ghost use Rattle.formats.specs.Refusals.{answer_number};
ghost use Rattle.planner.specs.home.Home.{HomeArgs, HomeWritten, HomeDone};

use crate::home::check::check_home;
use crate::home::read::read_nodes;
use crate::out::lay::write_header;
use formats::bytes::read32;
use formats::layout::PLAN_HEAD;
use formats::refusals::Refusal;

// Writes the file of n nodes of a plan that passes.
fn write_home(plan: &[u8], n: usize, file: &mut [u8])
    requires { HomeArgs plan.now n file.old }
    ensures { HomeWritten plan.now file.old file.new }
{
    let size = 2 * n + 1;
    read_nodes(
        &plan[PLAN_HEAD..PLAN_HEAD + size],
        &plan[PLAN_HEAD + size..],
        file,
        n,
    );
    write_header(file, n);
}

// The planner's file of our plan; or 19 or 21, and nothing is written. The excess of a longer buffer is untouched.
pub fn planner_of_plan(plan: &[u8], file: &mut [u8]) -> Result<(), Refusal>
    ensures { HomeDone plan.now file.old (answer_number result) file.new }
{
    check_home(plan, file.len())?;
    let n = read32(plan, 0) / 2;
    write_home(plan, n, file);
    Ok(())
}
