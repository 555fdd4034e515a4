// The roots of a question and one part, as the questions layer works them out.
ghost use Rattle.std.specs.Prelude.{◌≡◌};
ghost use Rattle.tables.specs.Climbs.{climbed_of};
ghost use Rattle.questions.specs.PartAnswers.{part_given};
ghost use Rattle.questions.specs.RootsAnswers.{roots_given, rooted_of};
ghost use Rattle.probes.specs.Probed.{RootsProbed, part_in};

use formats::limits::PART_LIMIT;
use questions::part::part;
use questions::roots::roots;
use tables::answers::Climbed;

// A part's state and links.
#[repr(C)]
#[derive(Clone, Copy)]
pub struct Part {
    pub state: u32,
    pub links: u32,
}

// How many roots there are, and the roots with zeros behind them; 0 and zeros where they are refused.
pub fn probe_roots(
    n: usize,
    node_table: &[u16],
    nodes: &[u16],
    out: &mut [u16; PART_LIMIT],
) -> usize
    ensures { RootsProbed (rooted_of (roots_given n node_table.now nodes.now)) result out.new }
{
    let found = roots(n, node_table, nodes);
    let list = found.nodes;
    *out = list;
    found.count
}

// The part that comes next; state 16 where it is refused.
pub fn probe_part(
    n: usize,
    s: usize,
    k: usize,
    plan: &[u8],
    rules: &[u8],
    node_table: &[u16],
    state_table: &[u8],
    roots: &[u16],
    states: &[u8],
    nodes: &[u16],
    labels: &[u8],
) -> Part
    ensures { result
        ≡ part_in (climbed_of (part_given n s k plan.now rules.now node_table.now state_table.now
        roots.now states.now nodes.now labels.now)) }
{
    match part(
        n,
        s,
        k,
        plan,
        rules,
        node_table,
        state_table,
        roots,
        states,
        nodes,
        labels,
    ) {
        Climbed::Reached(found) => {
            return Part {
                state: found.state as u32,
                links: found.links,
            };
        }
        Climbed::OutOfRange => {
            return Part {
                state: 16,
                links: 0,
            };
        }
    }
}
