// The list of changes: the nodes whose label is another, in rising order, and their labels.
ghost use Rattle.std.specs.Prelude.{◌≡◌, length, get_or};
ghost use Rattle.fewest.specs.inner.passes.Cells.{size_cell};
ghost use Rattle.fewest.specs.inner.list.Lists.{ChangePut, ChangeArgs, Listed, ListArgs};

// Adds the change of node v from label a to label b as entry c, where they differ; the number of entries.
fn put_change(nodes: &mut [u16], out: &mut [u8], c: usize, v: usize, a: u32, b: u32) -> usize
    requires { ChangeArgs (length nodes.old) (length out.old) c v a b }
    ensures { ChangePut a b c v nodes.old out.old result nodes.new out.new }
{
    if a == b {
        return c;
    }
    nodes[c] = v as u16;
    out[c] = b as u8;
    c + 1
}

// Lists the nodes whose first number of a row is not their label, and these numbers; how many.
#[inline(never)]
pub fn list_changes(
    labels: &[u8],
    work: &[u32],
    s: usize,
    nodes: &mut [u16],
    out: &mut [u8],
) -> usize
    requires { ListArgs labels.now work.now s (length nodes.old) (length out.old) }
    ensures { Listed (λ v. get_or labels.now v 0) (size_cell s work.now) (length labels.now)
        nodes.old out.old result nodes.new out.new }
{
    let mut c: usize = 0;
    for (v, a) in labels.iter().enumerate() {
        let b = work[v * (s + 1)];
        c = put_change(nodes, out, c, v, *a as u32, b);
    }
    c
}
