// A node's row of the work space: its size, then the cost of each state.
ghost use Rattle.std.specs.Prelude.{◌≡◌, get_or};
ghost use Rattle.fewest.specs.Relabelling.{stock_of};
ghost use Rattle.fewest.specs.inner.passes.Cells.{RowDone, PutArgs, StockArgs};

// The labels that node v may take: all where none are told.
pub fn stock(may: &[u64], v: usize) -> u64
    requires { StockArgs may.now v }
    ensures { result ≡ stock_of may.now v }
{
    if may.len() == 0 {
        return u64::MAX;
    }
    may[v]
}

// Writes the row of node v: size z, and the first s costs of `row`.
pub fn put_row(work: &mut [u32], s: usize, v: usize, z: u32, row: &[u32])
    requires { PutArgs work.old s v row.now }
    ensures { RowDone s v z (λ j. get_or row.now j 0) work.old work.new }
{
    let at = v * (s + 1);
    // no copy_from_slice: with it the whole call needs 32 bytes of stack more, above its 1 KiB
    for j in 0..s {
        work[at + 1 + j] = row[j];
    }
    work[at] = z;
}
