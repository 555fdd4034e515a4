// The bytes of a question: a 16-bit m, and m times a 16-bit node and an 8-bit label.
//
// Of a question with more changes than may be listed, the first 65 are kept: enough for Start to refuse it.
ghost use Rattle.std.specs.Prelude.{◌≡◌, ◌+◌, ◌*◌, ◌/◌, ◌≤◌, ◌<◌, min, length, get_or, take, set};
ghost use Rattle.whatif.specs.Question.{change_count, question_length, nodes_in, labels_within};

use crate::input::byte_at;

// How many changes of a question are kept.
const KEPT: usize = 65;

// Keeps byte number `at` of a question, if there is room.
pub fn keep(asked: &mut [u8], at: usize, b: u8)
    ensures { asked.new ≡ set asked.old at b }
{
    if asked.len() <= at {
        return;
    }
    asked[at] = b;
}

// The 16-bit number that starts at byte `at`.
fn number16(b: &[u8], at: usize) -> usize
    requires { at ≤ 197 }
    ensures { (result ≡ get_or b.now at 0 + 256 * get_or b.now (at + 1) 0) × (result < 65536) }
{
    byte_at(b, at) + 256 * byte_at(b, at + 1)
}

// The length of a question by its first two bytes.
pub fn question_length(asked: &[u8]) -> usize
    ensures { result ≡ question_length asked.now }
{
    2 + 3 * number16(asked, 0)
}

// How many changes of a question are kept: all of them, or 65.
pub fn kept_changes(asked: &[u8]) -> usize
    ensures { (result ≡ min (change_count asked.now) 65) × (result ≤ 65) }
{
    number16(asked, 0).min(KEPT)
}

// The nodes of a list of changes, three bytes each.
pub fn nodes_in(list: &[u8]) -> [u16; KEPT]
    requires { length list.now ≤ 195 }
    ensures result_value { take (length list.now / 3) result ≡ nodes_in list.now }
    ensures result_len { length result ≡ 65 }
{
    let mut nodes = [0u16; KEPT];
    for i in 0..list.len() / 3 {
        nodes[i] = number16(list, 3 * i) as u16;
    }
    nodes
}

// The labels of a list of changes.
pub fn labels_in(list: &[u8]) -> [u8; KEPT]
    requires { length list.now ≤ 195 }
    ensures result_value { take (length list.now / 3) result ≡ labels_within list.now }
    ensures result_len { length result ≡ 65 }
{
    let mut labels = [0u8; KEPT];
    for i in 0..list.len() / 3 {
        labels[i] = list[3 * i + 2];
    }
    labels
}
