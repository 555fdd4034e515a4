// Sets as bits of a byte: membership and preimage by shifts and masks.
ghost use Rattle.std.specs.Prelude.{◌≡◌, ◌+◌, ◌*◌, ◌^◌, ◌<◌, length, get_or};
ghost use Rattle.colours.specs.marks.Marks.{bit};
ghost use Rattle.colours.specs.StateSets.{set_of, member};
ghost use Rattle.colour_tables.specs.sets.Sets.{JoinArgs, ImageArgs};

// 1 where state k is in the set t, else 0.
pub fn bit_of(t: u8, k: u8) -> u8
    requires { k < 8 }
    ensures { (result ≡ bit (member t k)) × (result < 2) }
{
    (t >> k) & 1
}

// The set r, and state i besides where b is 1; all members of r are below i.
fn with_bit(r: u8, b: u8, i: usize) -> u8
    requires { JoinArgs r b i }
    ensures { (result ≡ b * 2 ^ i + r) × (result < 2 ^ (i + 1)) }
{
    r | (b << i)
}

// The states that `above` leads into the set t: "a step down takes a set to the states at the child that lead into it".
pub fn preimage(above: &[u8], t: u8) -> u8
    requires { ImageArgs above.now }
    ensures { result ≡ set_of (length above.now) (λ x. member t (get_or above.now x 0)) }
{
    let mut r: u8 = 0;
    for (i, x) in above.iter().enumerate() {
        let b = bit_of(t, *x);
        r = with_bit(r, b, i);
    }
    r
}
