// What each node of a plan may take.
ghost use Rattle.allowed.specs.Answers.{AllowedDone, ClearingDone};

// For each node the labels that it may take: bit a is 1 exactly where the plan with this node alone relabelled to a is
// cleared.
#[unsafe(no_mangle)]
pub extern "C" fn whatif_allowed(plan: &[u8], rules: &[u8], masks: &mut [u64]) -> u32
    ensures { AllowedDone plan.now rules.now masks.old result masks.new }
{
    capi::allowed_calls::whatif_allowed(plan, rules, masks)
}

// For each node the states with which the plan is cleared: bit q is 1 exactly where the plan is cleared with state q at
// this node, all else as it is.
#[unsafe(no_mangle)]
pub extern "C" fn whatif_clearing(plan: &[u8], rules: &[u8], sets: &mut [u16]) -> u32
    ensures { ClearingDone plan.now rules.now sets.old result sets.new }
{
    capi::allowed_calls::whatif_clearing(plan, rules, sets)
}
