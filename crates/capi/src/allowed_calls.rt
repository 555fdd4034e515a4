// The exported calls on what each node of a plan may take, each thin over a call of the layers below: its result is the
// answer's number, 0 where it is accepted. The buffer is written only on success.
//     whatif_allowed    the labels that each node may take
//     whatif_clearing   the states of each node with which the plan is cleared
ghost use Rattle.allowed.specs.Answers.{AllowedDone, ClearingDone};

use crate::numbers::number;
use allowed::clearing::call::clearing_states;
use allowed::masks::call::allowed_labels;

// For each node the labels that it may take: bit a is 1 exactly where the plan with this node alone relabelled to a is
// cleared.
pub fn whatif_allowed(plan: &[u8], rules: &[u8], masks: &mut [u64]) -> u32
    ensures { AllowedDone plan.now rules.now masks.old result masks.new }
{
    number(allowed_labels(plan, rules, masks))
}

// For each node the states with which the plan is cleared: bit q is 1 exactly where the plan is cleared with state q at
// this node, all else as it is.
pub fn whatif_clearing(plan: &[u8], rules: &[u8], sets: &mut [u16]) -> u32
    ensures { ClearingDone plan.now rules.now sets.old result sets.new }
{
    number(clearing_states(plan, rules, sets))
}
