// The three places where the program writes. No contract can name what the system is handed, so each of them asks of its
// callers that the text is what the definition says. Where a writer tells its bytes, the text is appended to them: all of
// it, or a front of it where the writer fails.
ghost use Rattle.std.specs.Prelude.{◌≡◌, List, ℕ, length, take, IfOk};
ghost use Rattle.whatif.specs.Said.{said_on, said};
ghost use Rattle.whatif.specs.Stream.{question_line};
ghost use Rattle.whatif.specs.Told.{Writes};
ghost use Rattle.whatif.specs.Turns.{Lines};

use std::io;
use std::io::{ErrorKind, Write};

// Writes all of the text. A write that takes nothing is an error.
fn write_whole<W: Write>(output: &mut W, text: &[u8]) -> io::Result<()>
    ensures { Writes result (W.contents output.old) (W.contents output.new) text.now }
{
    let mut done = 0;
    while done < text.len() {
        let n = output.write(&text[done..])?;
        if n == 0 {
            return Err(io::Error::from(ErrorKind::WriteZero));
        }
        done += n;
    }
    Ok(())
}

// All that is said to an input that is too large, "however many bytes come". Tells the text's length.
pub fn send_too_large<W: Write>(output: &mut W, head: &[u8], text: &[u8]) -> io::Result<usize>
    requires { (w : List ℕ) → take 12 w ≡ head.now → said w ≡ text.now }
    ensures len { IfOk result (λ n. n ≡ length text.now) }
    ensures written { Writes result (W.contents output.old) (W.contents output.new) text.now }
{
    write_whole(output, text)?;
    Ok(text.len())
}

// All that is said where Load refuses, for any questions: "that refusal only". Returns the text's length.
pub fn send_refusal<W: Write>(
    output: &mut W,
    plan: &[u8],
    rules: &[u8],
    text: &[u8],
) -> io::Result<usize>
    requires { (qs : List ℕ) → said_on plan.now rules.now qs ≡ text.now }
    ensures len { IfOk result (λ n. n ≡ length text.now) }
    ensures written { Writes result (W.contents output.old) (W.contents output.new) text.now }
{
    write_whole(output, text)?;
    Ok(text.len())
}

// The lines that a chunk of the questions completes. `before` holds the first `had` bytes of the question that was not yet
// whole, `asked` those of the one that is not yet whole then. Returns the text's length.
pub fn send_lines<W: Write>(
    output: &mut W,
    plan: &[u8],
    rules: &[u8],
    chunk: &[u8],
    before: &[u8],
    had: usize,
    asked: &[u8],
    have: usize,
    text: &[u8],
) -> io::Result<usize>
    requires { Lines (question_line plan.now rules.now) chunk.now before.now had asked.now have text.now }
    ensures len { IfOk result (λ n. n ≡ length text.now) }
    ensures written { Writes result (W.contents output.old) (W.contents output.new) text.now }
{
    write_whole(output, text)?;
    Ok(text.len())
}
