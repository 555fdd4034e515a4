// Eight kinds of a plan at a time: the part of check 5 that takes nearly all of it.
ghost use Rattle.std.specs.Prelude.{◌≡◌, true, ◌+◌, ◌<◌, ◌≤◌, length};
ghost use Rattle.formats.specs.inner.Eight.{eight_kinds, only_kinds, sums_of, fits, few_of, sufficient};

use crate::bytes::wide;

// 1 in each of eight bytes.
const ONES: usize = 72340172838076673;
// 128 in each.
const HIGH: usize = 9259542123273814144;
// 254 in each: the bits that a kind has not.
const OTHERS: usize = 18374403900871474942;
// 127 in the lowest, 126 in the next, down to 120.
const SPARE: usize = 8681104427521506943;

// Eight kinds as one number, the first lowest.
pub fn eight_kinds(kinds: &[u8], at: usize) -> usize
    requires { at + 8 ≤ length kinds.now }
    ensures { result ≡ eight_kinds kinds.now at }
{
    wide(kinds[at])
        + 256 * wide(kinds[at + 1])
        + 65536 * wide(kinds[at + 2])
        + 16777216 * wide(kinds[at + 3])
        + 4294967296 * wide(kinds[at + 4])
        + 1099511627776 * wide(kinds[at + 5])
        + 281474976710656 * wide(kinds[at + 6])
        + 72057594037927936 * wide(kinds[at + 7])
}

// Whether all eight are 0 or 1.
pub fn are_kinds(word: usize) -> bool
    ensures { result ≡ only_kinds word }
{
    word & OTHERS == 0
}

// In each byte, the sum of the bytes up to it.
pub fn sums_so_far(word: usize) -> usize
    requires { fits word ≡ true }
    ensures { result ≡ sums_of word }
{
    let pairs = word + (word << 8);
    let fours = pairs + (pairs << 16);
    fours + (fours << 32)
}

// At most 16: from there on eight kinds of any sort can follow.
fn few(trees: usize) -> usize
    ensures { result ≡ few_of trees }
{
    trees.min(16)
}

// Whether two trees wait at each inner node of the eight, where `trees` waited before them.
// A tree is missing at a kind where twice the inner nodes up to it exceed these trees by more than its position: then
// the high bit of its byte is set.
pub fn trees_suffice(twice: usize, trees: usize) -> bool
    requires { twice < 2000000000000000000 }
    ensures { result ≡ sufficient twice trees }
{
    (SPARE + twice - few(trees) * ONES) & HIGH == 0
}
