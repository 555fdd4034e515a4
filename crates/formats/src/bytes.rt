ghost use Rattle.std.specs.Prelude.{◌≡◌, ℕ, ◌+◌, ◌<◌, ◌≤◌, length};
ghost use Rattle.formats.specs.Bytes.{le32};

// A byte as a wider number.
pub fn wide(x: u8) -> usize
    ensures { (result ≡ x) × (result < 256) }
{
    x as usize
}

// The 32-bit little-endian number that starts at byte `at`.
pub fn read32(b: &[u8], at: usize) -> usize
    requires { at + 4 ≤ length b.now }
    ensures { result ≡ le32 b.now at }
{
    wide(b[at]) + 256 * wide(b[at + 1]) + 65536 * wide(b[at + 2]) + 16777216 * wide(b[at + 3])
}
