// One list of changes laid over another.
ghost use Rattle.capi.specs.list_calls.ListsExported.{LayExported};

// The upper list laid over the lower: its nodes and labels go to the front of `nodes` and `labels`, and their number to
// `count`.
#[unsafe(no_mangle)]
pub extern "C" fn whatif_lay_over(
    lower_nodes: &[u16],
    lower_labels: &[u8],
    upper_nodes: &[u16],
    upper_labels: &[u8],
    nodes: &mut [u16],
    labels: &mut [u8],
    count: &mut u32,
) -> u32
    ensures { LayExported lower_nodes.now lower_labels.now upper_nodes.now upper_labels.now
        nodes.old labels.old count.old result nodes.new labels.new count.new }
{
    capi::list_calls::whatif_lay_over(
        lower_nodes,
        lower_labels,
        upper_nodes,
        upper_labels,
        nodes,
        labels,
        count,
    )
}
