// The exported call on lists of changes (document 02, S-4), thin over the call of crate changes: its result is the
// reply's number, 0 where it is accepted. The entries go to the caller's buffers. Outputs are written only on success.
//     whatif_lay_over   one list laid over another
ghost use Rattle.capi.specs.list_calls.ListsExported.{LayExported};

use changes::lay_over;
use formats::refusals::Refusal;

// The upper list laid over the lower: its nodes and labels go to the front of `nodes` and `labels`, and their number to
// `count`.
pub fn whatif_lay_over(
    lower_nodes: &[u16],
    lower_labels: &[u8],
    upper_nodes: &[u16],
    upper_labels: &[u8],
    nodes: &mut [u16],
    labels: &mut [u8],
    count: &mut u32,
) -> u32
    ensures { LayExported lower_nodes.now lower_labels.now upper_nodes.now upper_labels.now
        nodes.old labels.old count.old result nodes.new labels.new count.new }
{
    let list = match lay_over(lower_nodes, lower_labels, upper_nodes, upper_labels) {
        Ok(list) => list,
        Err(refusal) => return refusal.number() as u32,
    };
    let n = list.count;
    if nodes.len() < n {
        return Refusal::BufferShort.number() as u32;
    }
    if labels.len() < n {
        return Refusal::BufferShort.number() as u32;
    }
    nodes[..n].copy_from_slice(&list.nodes[..n]);
    labels[..n].copy_from_slice(&list.labels[..n]);
    *count = n as u32;
    0
}
