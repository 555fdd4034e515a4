// Two rule tables merged or compared.
ghost use Rattle.capi.specs.product_calls.Exported.{MergeExported, AgreeExported};

// Writes the merged table to `merged`.
#[unsafe(no_mangle)]
pub extern "C" fn whatif_merge(first: &[u8], second: &[u8], merged: &mut [u8]) -> u32
    ensures { MergeExported first.now second.now merged.old result merged.new }
{
    capi::product_calls::whatif_merge(first, second, merged)
}

// Whether two tables agree goes to `agreed`; where they do not, the lines of a separating plan go to `lines` and their
// number to `count`.
#[unsafe(no_mangle)]
pub extern "C" fn whatif_agree(
    first: &[u8],
    second: &[u8],
    lines: &mut [u16],
    agreed: &mut u32,
    count: &mut u32,
) -> u32
    ensures { AgreeExported first.now second.now lines.old agreed.old count.old result
        lines.new agreed.new count.new }
{
    capi::product_calls::whatif_agree(first, second, lines, agreed, count)
}
