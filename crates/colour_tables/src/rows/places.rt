// The colour of a state in a row of the copies.
ghost use Rattle.std.specs.Prelude.{◌≡◌, ◌≤◌, length};
ghost use Rattle.colours.specs.Colouring.{place_of};

// The place of state q in a row; its length where q is not there.
pub fn place_of(row: &[u8], q: u8) -> usize
    ensures { (result ≡ place_of q row.now) × (result ≤ length row.now) }
{
    for (i, x) in row.iter().enumerate() {
        if *x == q {
            return i;
        }
    }
    row.len()
}
