// The line of an answer.
ghost use Rattle.std.specs.Prelude.{◌+◌, ◌≤◌, length};
ghost use Rattle.session.specs.Answers.{read_answer};
ghost use Rattle.whatif.specs.Text.{Put};
ghost use Rattle.whatif.specs.Line.{yes_or_no, counts_text, outcome_line, refused_line, line_of};

use crate::text::{put_number, put_word};
use formats::refusals::Refusal;
use session::answers::Outcome;

fn put_yes_or_no(out: &mut [u8], at: usize, yes: bool) -> usize
    requires { at + 5 ≤ length out.old }
    ensures { Put out.old at (yes_or_no yes) out.new result }
{
    if yes {
        return put_word(out, at, b" yes ");
    }
    put_word(out, at, b" no ")
}

// Parts, links and nodes passed over, and a newline.
fn put_counts(out: &mut [u8], at: usize, parts: u8, links: u32, passed: u32) -> usize
    requires { at + 33 ≤ length out.old }
    ensures put { Put out.old at (counts_text parts links passed) out.new result }
    ensures upper_bound { result ≤ at + 33 }
{
    let a = put_number(out, at, parts as u32);
    let b = put_word(out, a, b" ");
    let c = put_number(out, b, links);
    let d = put_word(out, c, b" ");
    let e = put_number(out, d, passed);
    put_word(out, e, b"\n")
}

fn put_outcome(
    out: &mut [u8],
    at: usize,
    state: u8,
    yes: bool,
    parts: u8,
    links: u32,
    passed: u32,
) -> usize
    requires { at + 48 ≤ length out.old }
    ensures put { Put out.old at (outcome_line state yes parts links passed) out.new result }
    ensures upper_bound { result ≤ at + 48 }
{
    let a = put_number(out, at, state as u32);
    let b = put_yes_or_no(out, a, yes);
    put_counts(out, b, parts, links, passed)
}

pub fn put_refused(out: &mut [u8], at: usize, n: u8) -> usize
    requires { at + 48 ≤ length out.old }
    ensures put { Put out.old at (refused_line n) out.new result }
    ensures upper_bound { result ≤ at + 48 }
{
    let a = put_word(out, at, b"refused ");
    let b = put_number(out, a, n as u32);
    put_word(out, b, b"\n")
}

// At most 48 bytes, the newline included.
pub fn put_line(out: &mut [u8], at: usize, answer: Result<Outcome, Refusal>) -> usize
    requires { at + 48 ≤ length out.old }
    ensures put { Put out.old at (line_of (read_answer answer)) out.new result }
    ensures upper_bound { result ≤ at + 48 }
{
    match answer {
        Ok(o) => put_outcome(out, at, o.state, o.yes, o.parts, o.links, o.passed),
        Err(refusal) => put_refused(out, at, refusal.number()),
    }
}
