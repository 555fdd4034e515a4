// The program `whatif`: reads a plan, rules and questions from standard input, and writes one line a question. All that it
// writes is `said` of what it reads (specs/Said.antt).
//     input      the three lengths, and the space for what they announce
//     question   the bytes of a question, and its list of changes
//     ask        a question asked of the session
//     text       words and numbers appended to a buffer
//     line       the line of an answer
//     chunk      the lines of the questions that a chunk of the input completes
//     send       what is written
//     asking     the questions, chunk by chunk
#![tactic(auto)]

mod ask;
mod asking;
mod chunk;
mod input;
mod line;
mod question;
mod send;
mod text;

ghost use Rattle.std.specs.Prelude.{◌≡◌, List, ℕ, ◌≤◌, length, take, IfOk};
ghost use Rattle.whatif.specs.Line.{refused_line};
ghost use Rattle.whatif.specs.Said.{said_on, said_after, said};
ghost use Rattle.whatif.specs.Told.{Says, Writes};
ghost use Rattle.whatif.specs.Turns.{Answered, AnsweredOn, AskedFor};

use asking::put_questions;
use input::{
    ReadCount, head_space, is_too_large, length_at, line_space, node_table_space, plan_space,
    read_whole, rules_space, state_table_space,
};
use line::put_refused;
use send::{send_refusal, send_too_large};
use session::state::Session;
use std::io;
use std::io::{Read, Write};

// How many bytes came of the questions, and how many were written.
#[derive(Clone, Copy)]
struct QuestionBytes {
    came: usize,
    sent: usize,
}

// What came of the plan and the rules, how many bytes of the questions, and how many were written.
#[derive(Clone, Copy)]
struct ProgramRun {
    plan: ReadCount,
    rules: ReadCount,
    came: usize,
    sent: usize,
}

// Tells Load's refusal.
fn send_load_refusal<W: Write>(
    output: &mut W,
    plan: &[u8],
    rules: &[u8],
    n: u8,
) -> io::Result<usize>
    requires { (qs : List ℕ) → said_on plan.now rules.now qs ≡ refused_line n }
    ensures len { IfOk result (λ k. k ≡ length (refused_line n)) }
    ensures written { Writes result (W.contents output.old) (W.contents output.new) (refused_line n) }
{
    let mut out = line_space();
    let end = put_refused(&mut out, 0, n);
    send_refusal(output, plan, rules, &out[..end])
}

// Loads the plan and the rules that came, and puts the questions.
fn clear<R: Read, W: Write>(
    input: &mut R,
    output: &mut W,
    plan: &[u8],
    rules: &[u8],
    stated: usize,
) -> io::Result<QuestionBytes>
    requires plan_len_bound { length plan.now ≤ 2014 }
    requires stated_bound { stated ≤ 4294967295 }
    ensures answered_on { IfOk result (λ b. AnsweredOn plan.now rules.now b.came b.sent) }
    ensures came_le_stated { IfOk result (λ b. b.came ≤ stated) }
    ensures says { Says (R.remaining input.old) result (W.contents output.old) (W.contents output.new)
        (λ w. said_on plan.now rules.now (take stated w)) }
{
    let mut node_table = node_table_space();
    let mut state_table = state_table_space();
    let fresh = Session::fresh();
    let done = fresh.load(plan, rules, &mut node_table, &mut state_table);
    let answer = done.answer;
    match answer {
        Ok(()) => {
            let loaded = done.session;
            let turn = put_questions(
                input,
                output,
                loaded,
                plan,
                rules,
                &node_table,
                &state_table,
                stated,
            )?;
            Ok(QuestionBytes {
                came: stated - turn.left,
                sent: turn.sent,
            })
        }
        Err(refusal) => {
            let sent = send_load_refusal(output, plan, rules, refusal.number())?;
            Ok(QuestionBytes { came: 0, sent })
        }
    }
}

// Reads the plan and the rules, the bytes that come, and clears them. None are read where a stated length is too large.
fn answer<R: Read, W: Write>(
    input: &mut R,
    output: &mut W,
    head: &[u8],
    plan: &mut [u8],
    rules: &mut [u8],
) -> io::Result<ProgramRun>
    requires { (length plan.old ≡ 2014) × (length rules.old ≡ 16484) }
    ensures answered { IfOk result (λ r. Answered head.now (take r.plan.count plan.new)
        (take r.rules.count rules.new) r.came r.sent) }
    ensures asked_for { IfOk result (λ r. AskedFor head.now r.plan.asked r.rules.asked) }
    ensures says { Says (R.remaining input.old) result (W.contents output.old) (W.contents output.new)
        (said_after head.now) }
{
    let plan_length = length_at(head, 0);
    let rules_length = length_at(head, 4);
    if is_too_large(plan_length, rules_length) {
        let sent = send_too_large(output, head, b"too large\n")?;
        return Ok(ProgramRun {
            plan: ReadCount { asked: 0, count: 0 },
            rules: ReadCount { asked: 0, count: 0 },
            came: 0,
            sent,
        });
    }
    let plan_got = read_whole(input, plan_length, plan)?;
    let rules_got = read_whole(input, rules_length, rules)?;
    let p = plan_got.count;
    let r = rules_got.count;
    let heard = clear(input, output, &plan[..p], &rules[..r], length_at(head, 8))?;
    Ok(ProgramRun {
        plan: plan_got,
        rules: rules_got,
        came: heard.came,
        sent: heard.sent,
    })
}

// What came of the twelve length bytes, and then of the rest.
#[derive(Clone, Copy)]
struct Whole {
    head: ReadCount,
    rest: ProgramRun,
}

// Reads the lengths, those of the twelve bytes that come, and answers.
fn run<R: Read, W: Write>(
    input: &mut R,
    output: &mut W,
    head: &mut [u8],
    plan: &mut [u8],
    rules: &mut [u8],
) -> io::Result<Whole>
    requires { (length head.old ≡ 12) × (length plan.old ≡ 2014) × (length rules.old ≡ 16484) }
    ensures asked_value { IfOk result (λ w. w.head.asked ≡ 12) }
    ensures answered { IfOk result (λ w. Answered (take w.head.count head.new) (take w.rest.plan.count plan.new)
        (take w.rest.rules.count rules.new) w.rest.came w.rest.sent) }
    ensures asked_for { IfOk result (λ w. AskedFor (take w.head.count head.new) w.rest.plan.asked w.rest.rules.asked) }
    ensures says { Says (R.remaining input.old) result (W.contents output.old) (W.contents output.new) said }
{
    let got = read_whole(input, 12, head)?;
    let n = got.count;
    let rest = answer(input, output, &head[..n], plan, rules)?;
    Ok(Whole { head: got, rest })
}

// A read or a write that fails ends the program with its error.
fn main(rt: HostRuntime) -> io::Result<()> {
    let mut input = rt.stdin();
    let mut output = rt.stdout();
    let mut head = head_space();
    let mut plan = plan_space();
    let mut rules = rules_space();
    run(&mut input, &mut output, &mut head, &mut plan, &mut rules)?;
    Ok(())
}
