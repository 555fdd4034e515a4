// The states that the colours of a copy take, one after the other, the colour that each lands on, and each one's row.
// The states taken are bits of a number: bit s is set where a lower colour has state s.
ghost use Rattle.std.specs.Prelude.{◌≡◌, ℕ, ◌^◌, ◌<◌, length};
ghost use Rattle.colour_tables.specs.rows.Turns.{TakeArgs, TakenTo};

use crate::forests::rows::put_colour;

// The four bits from bit 12 on of 2479 times 2 to the power k are a different number for each k below 16: the index of
// the entry k.
const PLACES: [u8; 16] = [0, 1, 2, 5, 3, 9, 6, 11, 15, 4, 8, 10, 14, 7, 13, 12];

// The place of the one bit that is set, of sixteen.
fn place_of_bit(b: usize) -> u8
    requires { b < 131072 }
    ensures { (x : ℕ) → x < 16 → b ≡ 2 ^ x → result ≡ x }
{
    PLACES[b * 2479 % 65536 / 4096]
}

// The colours in turn, where `successors` has the states that their states above lead to: their states go to the bytes
// from `at` on, and node v's rows to the colours' tables.
pub fn take_in_turn(
    successors: &[u8],
    bytes: &mut [u8],
    numbers: &mut [u16],
    n: usize,
    at: usize,
    v: usize,
)
    requires { TakeArgs successors.now bytes.old numbers.old n at v }
    ensures { TakenTo successors.now n at (length successors.now) v bytes.old
        numbers.old bytes.new numbers.new }
{
    let mut owners = [0u8; 16];
    let mut taken: usize = 0;
    for (c, q) in successors.iter().enumerate() {
        let q = *q as usize;
        let low = (taken + 1) & (131071 - taken);
        let bit = if (taken >> q) & 1 == 0 { 1 << q } else { low };
        taken += bit;
        let x = place_of_bit(bit);
        owners[x as usize] = c as u8;
        bytes[at + c] = x;
        put_colour(numbers, n, c, v, owners[q]);
    }
}
