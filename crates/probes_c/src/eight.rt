// A life of eight screens in place.
ghost use Rattle.std.specs.Prelude.{◌≡◌};
ghost use Rattle.formats.specs.Inputs.{inputs_of};
ghost use Rattle.probes.specs.Probed.{loaded_with};
ghost use Rattle.probes.specs.EightProbed.{eight_in};

use probes::eight::Eight;

// Eight screens loaded with N, S and K: Start on two of them, some deals from a first screen on, Cancel of the second
// and Read of the first.
#[unsafe(no_mangle)]
pub extern "C" fn probe_screens(
    n: u16,
    s: u8,
    k: u8,
    plan: &[u8],
    rules: &[u8],
    node_table: &[u16],
    state_table: &[u8],
    nodes: &[u16],
    labels: &[u8],
    screen: usize,
    other: usize,
    first: usize,
    count: u32,
) -> Eight
    ensures { result
        ≡ eight_in (inputs_of plan.now rules.now node_table.now state_table.now)
        nodes.now labels.now screen other first count (loaded_with n s k) }
{
    probes::eight::probe_screens(
        n,
        s,
        k,
        plan,
        rules,
        node_table,
        state_table,
        nodes,
        labels,
        screen,
        other,
        first,
        count,
    )
}
