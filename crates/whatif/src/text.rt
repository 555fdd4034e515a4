// Words and numbers appended to a buffer whose text ends at `at`. Each function answers where the text ends then.
ghost use Rattle.std.specs.Prelude.{◌+◌, ◌≤◌, length};
ghost use Rattle.whatif.specs.Text.{Put, decimal};

use itoa::Buffer;

pub fn put_word(out: &mut [u8], at: usize, word: &[u8]) -> usize
    requires { at + length word.now ≤ length out.old }
    ensures { Put out.old at word.now out.new result }
{
    let end = at + word.len();
    out[at..end].copy_from_slice(word);
    end
}

// A number in decimal: at most 10 digits.
pub fn put_number(out: &mut [u8], at: usize, n: u32) -> usize
    requires { at + 10 ≤ length out.old }
    ensures put { Put out.old at (decimal n) out.new result }
    ensures upper_bound { result ≤ at + 10 }
{
    let mut digits = Buffer::new();
    put_word(out, at, digits.format(n).as_bytes())
}
