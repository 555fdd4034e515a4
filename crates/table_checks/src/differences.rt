// Rows of a table of states compared with what they have to be: the differences or-ed into one byte, 0 where there is
// none. Small enough to be inlined: with a literal s the compiler knows the number of iterations.
ghost use Rattle.std.specs.Prelude.{◌≡◌, eqb, length};
ghost use Rattle.tables.specs.inner.Rows.{NearArgs};
ghost use Rattle.tables.specs.inner.Compare.{row_equals, near_entry};
ghost use Rattle.table_checks.specs.inner.PairStates.{far_entry, FarEntryArgs};
ghost use Rattle.table_checks.specs.inner.Joins.{Joined, JoinArgs, through_entry, ThroughArgs};

// Where node v's map differs from the rule's values that start at `base`, `stride` apart.
pub fn near_differences(
    state_table: &[u8],
    s: usize,
    v: usize,
    table: &[u8],
    base: usize,
    stride: usize,
) -> u8
    requires { NearArgs (length state_table.now) s v (length table.now) base stride }
    ensures { eqb result 0 ≡ row_equals s state_table.now v (near_entry table.now base stride) }
{
    let at = v * (s + 1);
    let mut bad = 0u8;
    for q in 0..s {
        let x = state_table[at + (1 + q)];
        let y = table[base + q * stride];
        bad |= x ^ y;
    }
    bad
}

// Where node v's map differs from those values composed with the maps of nodes p and j.
pub fn far_differences(
    state_table: &[u8],
    s: usize,
    v: usize,
    p: usize,
    j: usize,
    table: &[u8],
    base: usize,
    stride: usize,
) -> u8
    requires { FarEntryArgs s state_table.now v p j table.now base stride }
    ensures { eqb result 0 ≡ row_equals s state_table.now v
        (far_entry s state_table.now p j table.now base stride) }
{
    let at = v * (s + 1);
    let first = p * (s + 1);
    let second = j * (s + 1);
    let mut bad = 0u8;
    for q in 0..s {
        let x = state_table[at + (1 + q)];
        let near = table[base + q * stride] as usize;
        let next = state_table[first + (1 + near)] as usize;
        let y = state_table[second + (1 + next)];
        bad |= x ^ y;
    }
    bad
}

// The map of node p composed with the map of node j.
pub fn join_maps(state_table: &[u8], s: usize, p: usize, j: usize, joined: &mut [u8])
    requires { JoinArgs s state_table.now p j (length joined.old) }
    ensures { Joined s state_table.now p j s joined.new }
{
    let first = p * (s + 1);
    let second = j * (s + 1);
    for q in 0..s {
        let next = state_table[first + (1 + q)] as usize;
        joined[q] = state_table[second + (1 + next)];
    }
}

// Where node v's map differs from the rule's values composed with a joined map.
pub fn joined_differences(
    state_table: &[u8],
    s: usize,
    v: usize,
    joined: &[u8],
    table: &[u8],
    base: usize,
    stride: usize,
) -> u8
    requires { ThroughArgs s (length state_table.now) v (length joined.now) table.now base stride }
    ensures { eqb result 0 ≡ row_equals s state_table.now v
        (through_entry joined.now table.now base stride) }
{
    let at = v * (s + 1);
    let mut bad = 0u8;
    for q in 0..s {
        let x = state_table[at + (1 + q)];
        let near = table[base + q * stride] as usize;
        let y = joined[near];
        bad |= x ^ y;
    }
    bad
}
