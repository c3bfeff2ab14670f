// The calls of the entries that the lines of a log ask for, and the words of their answers.
ghost use Rattle.std.specs.Prelude.{[], ◌≡◌, ◌≤◌, length, take, Some};
ghost use Rattle.interpreter.specs.Entries.{to_start, to_step, to_run_on, to_report, to_places, to_name};
ghost use Rattle.call_lines.specs.Answering.{answer_room, Answered, LineAnswered};

use crate::lines::CallLine;
use interpreter::entries::{exec_name, places, report, run_on, start, step};
use print_answers::answers::{
    put_named, put_ran_on, put_reported, put_started, put_stepped, put_surveyed,
};
use print_bytes::writing::put;

fn call_start(text: &[u8], scratch: &mut [u32], run: &mut [u32], n: u32, out: &mut [u8]) -> usize
    requires { answer_room text.now ≤ length out.old }
    ensures { Answered text.now (to_start n) scratch.old run.old scratch.new run.new out.old out.new result }
{
    let answer = start(text, scratch, run, n);
    put_started(out, 0, answer)
}

fn call_step(text: &[u8], scratch: &mut [u32], run: &mut [u32], n: u32, out: &mut [u8]) -> usize
    requires { answer_room text.now ≤ length out.old }
    ensures { Answered text.now (to_step n) scratch.old run.old scratch.new run.new out.old out.new result }
{
    let answer = step(text, scratch, run, n);
    put_stepped(text, out, 0, answer)
}

fn call_run_on(text: &[u8], scratch: &mut [u32], run: &mut [u32], n: u32, out: &mut [u8]) -> usize
    requires { answer_room text.now ≤ length out.old }
    ensures { Answered text.now (to_run_on n) scratch.old run.old scratch.new run.new out.old out.new result }
{
    let answer = run_on(text, scratch, run, n);
    put_ran_on(text, out, 0, answer)
}

// The first n words, or all where there are fewer.
fn first(words: &[u32], n: u32) -> &[u32]
    ensures { result.now ≡ take n words.now }
{
    &words[..words.len().min(n as usize)]
}

fn call_report(text: &[u8], scratch: &mut [u32], run: &[u32], out: &mut [u8]) -> usize
    requires { answer_room text.now ≤ length out.old }
    ensures { Answered text.now to_report scratch.old run.now scratch.new run.now out.old out.new result }
{
    match report(text, scratch, run) {
        Ok(told) => put_reported(out, 0, Ok(told.open), first(&told.numbers, told.open)),
        Err(refusal) => put_reported(out, 0, Err(refusal), &[]),
    }
}

fn call_places(text: &[u8], scratch: &mut [u32], run: &[u32], out: &mut [u8]) -> usize
    requires { answer_room text.now ≤ length out.old }
    ensures { Answered text.now to_places scratch.old run.now scratch.new run.now out.old out.new result }
{
    match places(text, scratch, run) {
        Ok(told) => put_surveyed(
            out,
            0,
            Ok(told.processes),
            first(&told.steps, told.processes),
        ),
        Err(refusal) => put_surveyed(out, 0, Err(refusal), &[]),
    }
}

fn call_name(text: &[u8], scratch: &mut [u32], line: u32, out: &mut [u8]) -> usize
    requires { answer_room text.now ≤ length out.old }
    ensures { Answered text.now (to_name line) scratch.old [] scratch.new [] out.old out.new result }
{
    let mut number: u32 = 0;
    let mut offset: usize = 0;
    let name = exec_name(text, scratch, line, &mut number, &mut offset);
    put_named(out, 0, name, number, offset)
}

// Makes the call and puts the words of its answer. The lines that lend make none: the caller lends so from there on.
fn answer_call(
    text: &[u8],
    scratch: &mut [u32],
    run: &mut [u32],
    call: CallLine,
    out: &mut [u8],
) -> usize
    requires { answer_room text.now ≤ length out.old }
    ensures line_answered { LineAnswered (Some call) text.now scratch.old run.old scratch.new run.new out.old out.new result }
    ensures upper_bound { result ≤ length out.new }
{
    match call {
        CallLine::Start(n) => call_start(text, scratch, run, n, out),
        CallLine::Step(n) => call_step(text, scratch, run, n, out),
        CallLine::Run(n) => call_run_on(text, scratch, run, n, out),
        CallLine::Report => call_report(text, scratch, run, out),
        CallLine::Places => call_places(text, scratch, run, out),
        CallLine::Name(n) => call_name(text, scratch, n, out),
        CallLine::Scratch(_) | CallLine::RunWords(_) => put(out, 0, b"lent"),
    }
}

// Answers what a line asks for, as `read_line` reads it. One that is no call is not answered.
pub fn answer_line(
    text: &[u8],
    scratch: &mut [u32],
    run: &mut [u32],
    call: Option<CallLine>,
    out: &mut [u8],
) -> usize
    requires { answer_room text.now ≤ length out.old }
    ensures line_answered { LineAnswered call text.now scratch.old run.old scratch.new run.new out.old out.new result }
    ensures upper_bound { result ≤ length out.new }
{
    match call {
        Some(asked) => answer_call(text, scratch, run, asked, out),
        None => 0,
    }
}
