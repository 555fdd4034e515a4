// Rows of a table of states compared with what they have to be, for the full checks of rule and of branch tables.
ghost use Rattle.std.specs.Prelude.{◌≡◌, length};
ghost use Rattle.tables.specs.inner.Rows.{RowIn, NearArgs};
ghost use Rattle.tables.specs.inner.Compare.{row_equals, near_entry};

// Whether node v's map is the identity, as the root's has to be.
pub fn root_row_is(state_table: &[u8], s: usize, v: usize) -> bool
    requires { RowIn (length state_table.now) s v }
    ensures { result ≡ row_equals s state_table.now v (λ q. q) }
{
    let at = v * (s + 1);
    // no return at the first difference: with one, 16 entries take 1.6 of the instructions
    let mut same = true;
    for q in 0..s {
        let x = state_table[at + (1 + q)] as usize;
        if x != q {
            same = false;
        }
    }
    same
}

// Whether node v's map has the rule's values that start at `base`, `stride` apart.
pub fn near_row_is(
    state_table: &[u8],
    s: usize,
    v: usize,
    table: &[u8],
    base: usize,
    stride: usize,
) -> bool
    requires { NearArgs (length state_table.now) s v (length table.now) base stride }
    ensures { result ≡ row_equals s state_table.now v (near_entry table.now base stride) }
{
    let at = v * (s + 1);
    // no return at the first difference: with one, 16 entries take 1.6 of the instructions
    let mut same = true;
    for q in 0..s {
        let x = state_table[at + (1 + q)];
        let y = table[base + q * stride];
        if x != y {
            same = false;
        }
    }
    same
}
