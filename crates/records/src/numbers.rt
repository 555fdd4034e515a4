// Runs of numbers of two bytes. There is no early exit: the loops can be done many numbers at a time.
ghost use Rattle.std.specs.Prelude.{◌≡◌, ◌+◌, ◌*◌, ◌/◌, ◌%◌, ◌≤◌, ◌<◌, length};
ghost use Rattle.records.specs.Layout.{numbers16, bytes16};
ghost use Rattle.formats.specs.Bytes.{le16, le32};

use formats::bytes::read32;

// A byte as a wider number.
fn wide(x: u8) -> u16
    ensures { (result ≡ x) × (result < 256) }
{
    u16::from(x)
}

// The 16-bit number that starts at byte `at`.
pub fn number16(bytes: &[u8], at: usize) -> u16
    requires { at + 2 ≤ length bytes.now }
    ensures { result ≡ le16 bytes.now at }
{
    wide(bytes[at]) + 256 * wide(bytes[at + 1])
}

// The 32-bit number that starts at byte `at`.
pub fn number32(bytes: &[u8], at: usize) -> u32
    requires { at + 4 ≤ length bytes.now }
    ensures { result ≡ le32 bytes.now at }
{
    read32(bytes, at) as u32
}

// The bytes of numbers, two each.
pub fn put_numbers(numbers: &[u16], out: &mut [u8])
    requires { length out.old ≡ 2 * length numbers.now }
    ensures { out.new ≡ bytes16 numbers.now }
{
    for i in 0..numbers.len() {
        out[2 * i] = (numbers[i] % 256) as u8;
        out[2 * i + 1] = (numbers[i] / 256) as u8;
    }
}

// The numbers of bytes, two each.
pub fn get_numbers(bytes: &[u8], out: &mut [u16])
    requires { length bytes.now ≡ 2 * length out.old }
    ensures { out.new ≡ numbers16 bytes.now }
{
    for i in 0..out.len() {
        out[i] = number16(bytes, 2 * i);
    }
}
