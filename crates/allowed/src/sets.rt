// The states that lead into a set, looked up in a rule table.
ghost use Rattle.std.specs.Prelude.{◌≡◌, ◌<◌};
ghost use Rattle.allowed.specs.inner.Sets.{right_set, left_set, marked_set, SetArgs, MarkArgs};

use state_sets::gather::gathered;

// The states of the right child that lead into the set c, beside the left state p under label a.
pub fn right_set(inner: &[u8], s: usize, k: usize, p: usize, a: usize, q: usize, c: u64) -> u64
    requires { SetArgs inner.now s k p a q }
    ensures { (result ≡ right_set inner.now s k p a c) × (result < 65536) }
{
    gathered(inner, (p * k + a) * s, 1, c, s)
}

// The states of the left child that lead into the set c, beside the right state q under label a.
pub fn left_set(inner: &[u8], s: usize, k: usize, p: usize, a: usize, q: usize, c: u64) -> u64
    requires { SetArgs inner.now s k p a q }
    ensures { (result ≡ left_set inner.now s k a q c) × (result < 65536) }
{
    gathered(inner, a * s + q, k * s, c, s)
}

// The marked states.
pub fn marked_set(marks: &[u8], s: usize) -> u64
    requires { MarkArgs marks.now s }
    ensures { (result ≡ marked_set marks.now s) × (result < 65536) }
{
    gathered(marks, 0, 1, 2, s)
}
