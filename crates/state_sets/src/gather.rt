// Sets as bits of a 64-bit number: membership, and the positions of a table whose entries are in a set.
ghost use Rattle.std.specs.Prelude.{◌≡◌, ◌+◌, ◌*◌, ◌^◌, ◌<◌};
ghost use Rattle.state_sets.specs.StateSets.{bit, member};
ghost use Rattle.state_sets.specs.inner.Gather.{gathered_from, GatherArgs, BitArgs};

// 1 where x is in the set, else 0.
fn bit_of(set: u64, x: u8) -> u64
    requires { x < 64 }
    ensures { (result ≡ bit (member set x)) × (result < 2) }
{
    (set >> x) & 1
}

// The set r, and i besides where b is 1; all members of r are below i.
fn with_bit(r: u64, b: u64, i: usize) -> u64
    requires { BitArgs r b i }
    ensures { (result ≡ b * 2 ^ i + r) × (result < 2 ^ (i + 1)) }
{
    r | (b << i)
}

// The set of those i below n whose table entry at base + i * stride is in the set.
pub fn gathered(table: &[u8], base: usize, stride: usize, set: u64, n: usize) -> u64
    requires { GatherArgs table.now base stride n }
    ensures { result ≡ gathered_from table.now base stride set n }
{
    let mut r: u64 = 0;
    for i in 0..n {
        let b = bit_of(set, table[base + i * stride]);
        r = with_bit(r, b, i);
    }
    r
}
