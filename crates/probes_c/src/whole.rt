// Start, advances, a whole question and a whole life of a session in place.
ghost use Rattle.std.specs.Prelude.{◌≡◌};
ghost use Rattle.formats.specs.Inputs.{inputs_of};
ghost use Rattle.probes.specs.Probed.{loaded_with, steps_in, question_in, life_in};

use probes::whole::{Life, Question, Steps};

// Start on a loaded session of N, S and K, then some advances.
#[unsafe(no_mangle)]
pub extern "C" fn probe_steps(
    n: u16,
    s: u8,
    k: u8,
    plan: &[u8],
    rules: &[u8],
    node_table: &[u16],
    state_table: &[u8],
    nodes: &[u16],
    labels: &[u8],
    count: u32,
) -> Steps
    ensures { result
        ≡ steps_in (inputs_of plan.now rules.now node_table.now state_table.now)
        nodes.now labels.now count (loaded_with n s k) }
{
    probes::whole::probe_steps(
        n,
        s,
        k,
        plan,
        rules,
        node_table,
        state_table,
        nodes,
        labels,
        count,
    )
}

// A whole question on a loaded session of N, S and K: Start, an advance for each part, Read.
#[unsafe(no_mangle)]
pub extern "C" fn probe_question(
    n: u16,
    s: u8,
    k: u8,
    plan: &[u8],
    rules: &[u8],
    node_table: &[u16],
    state_table: &[u8],
    nodes: &[u16],
    labels: &[u8],
) -> Question
    ensures { result
        ≡ question_in (inputs_of plan.now rules.now node_table.now state_table.now)
        nodes.now labels.now (loaded_with n s k) }
{
    probes::whole::probe_question(n, s, k, plan, rules, node_table, state_table, nodes, labels)
}

// A life of a session, each call in place: fresh, Load, Start, Cancel, and the question asked again, with an advance
// for each part, Read.
#[unsafe(no_mangle)]
pub extern "C" fn probe_life(
    plan: &[u8],
    rules: &[u8],
    node_table: &mut [u16],
    state_table: &mut [u8],
    nodes: &[u16],
    labels: &[u8],
) -> Life
    ensures { result
        ≡ life_in (inputs_of plan.now rules.now node_table.old state_table.old)
        (inputs_of plan.now rules.now node_table.new state_table.new)
        nodes.now labels.now }
{
    probes::whole::probe_life(plan, rules, node_table, state_table, nodes, labels)
}
