// Writing one node's map, for rule tables and branch tables.
ghost use Rattle.std.specs.Prelude.{◌+◌, ◌*◌, ◌<◌, length, get_or};
ghost use Rattle.tables.specs.inner.Rows.{Rowed, NearArgs, SameArgs};

// Node v's map, from a table of states: entry q is the table's at base + q * stride.
pub fn near_row(
    state_table: &mut [u8],
    s: usize,
    v: usize,
    table: &[u8],
    base: usize,
    stride: usize,
)
    requires { NearArgs (length state_table.old) s v (length table.now) base stride }
    ensures { Rowed s (λ q. get_or table.now (base + q * stride) 0) v state_table.old state_table.new }
{
    let at = v * (s + 1) + 1;
    for q in 0..s {
        state_table[at + q] = table[base + q * stride];
    }
}

// The identity, the root's map.
pub fn same_row(state_table: &mut [u8], s: usize, v: usize)
    requires { SameArgs (length state_table.old) s v }
    ensures { Rowed s (λ q. q) v state_table.old state_table.new }
{
    let at = v * (s + 1) + 1;
    for q in 0..s {
        state_table[at + q] = q as u8;
    }
}
