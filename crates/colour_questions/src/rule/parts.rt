// All parts of a rule question by colours, in rising node number, for any inputs.
ghost use Rattle.colour_questions.specs.parts.inner.Args.{colour_view};
ghost use Rattle.colour_questions.specs.rule.inner.Args.{AllArgs, AllDone};

use crate::parts::part::part_by_colours;
use crate::target_states::trials::Trial;
use formats::limits::PART_LIMIT;

// The state of the last root, the drops of all trials and their links, None where a part has no state; m is the number
// of sets of states.
// On the many parameters see docs/DECISIONS.md, "Many parameters".
pub fn all_by_colours(
    labels: &[u8],
    kinds: &[u8],
    leaves: &[u8],
    inner: &[u8],
    node_table: &[u16],
    state_table: &[u8],
    numbers: &[u16],
    copies: &[u8],
    n: usize,
    s: usize,
    k: usize,
    m: usize,
    roots: &[u16],
    nodes: &[u16],
    changes: &[u8],
) -> Option<Trial>
    requires { AllArgs n s k m labels.now kinds.now leaves.now inner.now node_table.now state_table.now
        numbers.now copies.now nodes.now changes.now roots.now }
    ensures { AllDone (colour_view n s k labels.now kinds.now leaves.now
        inner.now node_table.now state_table.now numbers.now
        copies.now) nodes.now changes.now roots.now result }
{
    let mut states = [0u8; PART_LIMIT];
    let mut last: u8 = 0;
    let mut drops: u32 = 0;
    let mut links: u32 = 0;
    for (i, root) in roots.iter().enumerate() {
        let t = part_by_colours(
            labels,
            kinds,
            leaves,
            inner,
            node_table,
            state_table,
            numbers,
            copies,
            n,
            s,
            k,
            m,
            &roots[..i],
            &states[..i],
            nodes,
            changes,
            *root as usize,
        )?;
        last = t.state;
        states[i] = t.state;
        drops += t.drops;
        links += t.links;
    }
    Some(Trial {
        state: last,
        drops,
        links,
    })
}
