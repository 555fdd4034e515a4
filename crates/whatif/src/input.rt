// The three lengths at the start of the input, the space for what they announce, and a read.
ghost use Rattle.std.specs.Prelude.{◌≡◌, ◌≤◌, ◌<◌, min, length, get_or, take, IfOk};
ghost use Rattle.std.specs.Io.KnownBytes.{Consumes, IsAtEnd, ReadConsumes};
ghost use Rattle.formats.specs.Bytes.{le32};
ghost use Rattle.whatif.specs.Input.{IsPrefixLen, too_large};

use std::io;
use std::io::Read;

// The longest plan and rules that the program takes: N 1,001, and S 16 with K 64.
pub const PLAN_LIMIT: usize = 2014;

pub const RULES_LIMIT: usize = 16484;

// The byte at `at`. One that did not come counts as 0.
pub fn byte_at(b: &[u8], at: usize) -> usize
    ensures { (result ≡ get_or b.now at 0) × (result < 256) }
{
    if b.len() <= at {
        return 0;
    }
    b[at] as usize
}

// The 32-bit length that starts at byte `at` of the first twelve, or of those of them that came.
pub fn length_at(head: &[u8], at: usize) -> usize
    requires { at ≤ 8 }
    ensures { (result ≡ le32 head.now at) × (result < 4294967296) }
{
    byte_at(head, at)
        + 256 * byte_at(head, at + 1)
        + 65536 * byte_at(head, at + 2)
        + 16777216 * byte_at(head, at + 3)
}

// Whether a stated length is above its limit.
pub fn is_too_large(plan: usize, rules: usize) -> bool
    ensures { result ≡ too_large plan rules }
{
    if PLAN_LIMIT < plan {
        return true;
    }
    RULES_LIMIT < rules
}

// Zeros: only the length is promised, which is all that a read asks.
pub fn head_space() -> [u8; 12]
    ensures { length result ≡ 12 }
{
    [0; 12]
}

pub fn plan_space() -> [u8; PLAN_LIMIT]
    ensures { length result ≡ 2014 }
{
    [0; PLAN_LIMIT]
}

pub fn rules_space() -> [u8; RULES_LIMIT]
    ensures { length result ≡ 16484 }
{
    [0; RULES_LIMIT]
}

// The tables of N 1,001: four numbers a node, and seventeen bytes a node for S 16.
pub fn node_table_space() -> [u16; 4004]
    ensures { length result ≡ 4004 }
{
    [0; 4004]
}

pub fn state_table_space() -> [u8; 17017]
    ensures { length result ≡ 17017 }
{
    [0; 17017]
}

// How much of the questions is read at a time.
pub const CHUNK: usize = 1365;

pub fn chunk_space() -> [u8; CHUNK]
    ensures { length result ≡ 1365 }
{
    [0; CHUNK]
}

// The bytes of a question that are kept.
pub fn asked_space() -> [u8; 197]
    ensures { length result ≡ 197 }
{
    [0; 197]
}

// The space for the line of Load's refusal.
pub fn line_space() -> [u8; 4096]
    ensures { length result ≡ 4096 }
{
    [0; 4096]
}

// The space for the lines of what is read at a time, at most 48 bytes for each byte of the questions.
pub fn lines_space() -> [u8; 65536]
    ensures { length result ≡ 65536 }
{
    [0; 65536]
}

// One read of at most `most` bytes. Fewer may come, as from a pipe; none at the end of the input.
pub fn read_some<R: Read>(input: &mut R, most: usize, chunk: &mut [u8]) -> io::Result<usize>
    ensures upper_bound { IfOk result (λ n. n ≤ most) }
    ensures upper_bound_2 { IfOk result (λ n. n ≤ length chunk.old) }
    ensures prefix_len { IfOk result (λ n. IsPrefixLen n chunk.new) }
    ensures taken { ReadConsumes (R.remaining input.old) (R.remaining input.new) result (take most chunk.new) }
{
    let n = most.min(chunk.len());
    input.read(&mut chunk[..n])
}

// Reads until the space is full or the input ends, and returns how many bytes came.
fn read_full<R: Read>(input: &mut R, space: &mut [u8]) -> io::Result<usize>
    ensures prefix_len { IfOk result (λ n. IsPrefixLen n space.new) }
    ensures taken { IfOk result (λ n. Consumes (R.remaining input.old) (R.remaining input.new) (take n space.new)) }
    ensures ended { IfOk result (λ n. n < length space.new → IsAtEnd (R.remaining input.new)) }
{
    let mut done = 0;
    while done < space.len() {
        let n = input.read(&mut space[done..])?;
        if n == 0 {
            return Ok(done);
        }
        done += n;
    }
    Ok(done)
}

// How many bytes were asked for, and how many came.
#[derive(Clone, Copy)]
pub struct ReadCount {
    pub asked: usize,
    pub count: usize,
}

// As many reads as it takes for `most` bytes; fewer come where the input ends.
pub fn read_whole<R: Read>(input: &mut R, most: usize, space: &mut [u8]) -> io::Result<ReadCount>
    ensures asked_value { IfOk result (λ r. r.asked ≡ min most (length space.old)) }
    ensures count_le_asked { IfOk result (λ r. r.count ≤ r.asked) }
    ensures prefix_len { IfOk result (λ r. IsPrefixLen r.count space.new) }
    ensures taken { IfOk result (λ r. Consumes (R.remaining input.old) (R.remaining input.new) (take r.count space.new)) }
    ensures ended { IfOk result (λ r. r.count < r.asked → IsAtEnd (R.remaining input.new)) }
{
    let n = most.min(space.len());
    let count = read_full(input, &mut space[..n])?;
    Ok(ReadCount { asked: n, count })
}
