// The exported count of choices (document 02, S-10), thin over the call of crate choices: its result is the reply's
// number, 0 where it is accepted. The counts of the S states go to the caller's buffer. Outputs are written only on
// success.
//     whatif_count   how many choices end in each state
ghost use Rattle.capi.specs.choice_calls.CountExported.{CountExported};

use choices::count::count;
use formats::bytes::read32;
use formats::refusals::Refusal;

// How many choices of labels for the nodes end in each state: the counts go to the front of `counts`, parts and links
// to their output parameters.
pub fn whatif_count(
    plan: &[u8],
    rules: &[u8],
    node_table: &[u16],
    state_table: &[u8],
    nodes: &[u16],
    counts: &mut [u64],
    parts: &mut u32,
    links: &mut u32,
) -> u32
    ensures { CountExported plan.now rules.now node_table.now state_table.now
        nodes.now counts.old parts.old links.old result counts.new
        parts.new links.new }
{
    let reply = match count(plan, rules, node_table, state_table, nodes) {
        Ok(reply) => reply,
        Err(refusal) => return refusal.number() as u32,
    };
    let s = read32(rules, 0);
    if counts.len() < s {
        return Refusal::BufferShort.number() as u32;
    }
    counts[..s].copy_from_slice(&reply.counts[..s]);
    *parts = reply.parts;
    *links = reply.links;
    0
}
