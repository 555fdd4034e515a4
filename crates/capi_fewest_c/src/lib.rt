// What C calls of the fewest changes: an export for the function of crate capi_fewest, with the same clauses.
#![tactic(auto)]

ghost use Rattle.fewest.specs.Answers.{FewestTold};

// The least number of nodes that must be relabelled so that the plan is cleared (want 1) or no longer is (want 0; any
// other number is read as 1), and the changes where they are at most 64.
#[unsafe(no_mangle)]
pub extern "C" fn whatif_fewest(
    plan: &[u8],
    rules: &[u8],
    may: &[u64],
    want: u32,
    work: &mut [u32],
    nodes: &mut [u16],
    labels: &mut [u8],
    least: &mut u32,
    count: &mut u32,
) -> u32
    ensures { FewestTold plan.now rules.now may.now want work.old
        nodes.old labels.old least.old count.old result work.new
        nodes.new labels.new least.new count.new }
{
    capi_fewest::whatif_fewest(plan, rules, may, want, work, nodes, labels, least, count)
}
