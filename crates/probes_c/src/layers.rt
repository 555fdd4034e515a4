// The roots of a question and one part.
ghost use Rattle.std.specs.Prelude.{◌≡◌};
ghost use Rattle.tables.specs.Climbs.{climbed_of};
ghost use Rattle.questions.specs.PartAnswers.{part_given};
ghost use Rattle.questions.specs.RootsAnswers.{roots_given, rooted_of};
ghost use Rattle.probes.specs.Probed.{RootsProbed, part_in};

use formats::limits::PART_LIMIT;
use probes::layers::Part;

// How many roots there are, and the roots with zeros behind them; 0 and zeros where they are refused.
#[unsafe(no_mangle)]
pub extern "C" fn probe_roots(
    n: usize,
    node_table: &[u16],
    nodes: &[u16],
    out: &mut [u16; PART_LIMIT],
) -> usize
    ensures { RootsProbed (rooted_of (roots_given n node_table.now nodes.now)) result out.new }
{
    probes::layers::probe_roots(n, node_table, nodes, out)
}

// The part that comes next; state 16 where it is refused.
#[unsafe(no_mangle)]
pub extern "C" fn probe_part(
    n: usize,
    s: usize,
    k: usize,
    plan: &[u8],
    rules: &[u8],
    node_table: &[u16],
    state_table: &[u8],
    roots: &[u16],
    states: &[u8],
    nodes: &[u16],
    labels: &[u8],
) -> Part
    ensures { result
        ≡ part_in (climbed_of (part_given n s k plan.now rules.now node_table.now state_table.now
        roots.now states.now nodes.now labels.now)) }
{
    probes::layers::probe_part(
        n,
        s,
        k,
        plan,
        rules,
        node_table,
        state_table,
        roots,
        states,
        nodes,
        labels,
    )
}
