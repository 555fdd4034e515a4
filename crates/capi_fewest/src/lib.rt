// The fewest changes as C and Rust call them, thin over a call of the layers below: the result is the answer's number,
// 0 where it is accepted. The buffers are written only on success. Crate capi_fewest_c exports the call.
//     whatif_fewest   the least number of nodes to relabel so that the plan is cleared, or no longer is
#![tactic(auto)]

ghost use Rattle.fewest.specs.Answers.{FewestTold};

use capi::numbers::number;
use fewest::call::fewest_changes;

// The least number of nodes that must be relabelled so that the plan is cleared (want 1) or no longer is (want 0; any
// other number is read as 1), and the changes where they are at most 64.
pub fn whatif_fewest(
    plan: &[u8],
    rules: &[u8],
    may: &[u64],
    want: u32,
    work: &mut [u32],
    nodes: &mut [u16],
    labels: &mut [u8],
    least: &mut u32,
    count: &mut u32,
) -> u32
    ensures { FewestTold plan.now rules.now may.now want work.old
        nodes.old labels.old least.old count.old result work.new
        nodes.new labels.new least.new count.new }
{
    let answer = fewest_changes(plan, rules, may, want, work, nodes, labels, least, count);
    number(answer)
}
