// A log's calls, made on one run, and the log printed with their answers.
ghost use Rattle.std.specs.Prelude.{◌≤◌, length, IfOk};
ghost use Rattle.call_lines.specs.Answering.{answer_room};
ghost use Rattle.call_lines.specs.CallLine.{most_scratch, most_run};
ghost use Rattle.call_lines.specs.Lending.{Lendable};

use call_lines::calls::answer_line;
use call_lines::lending::{Lent, lend, lent_at_first};
use call_lines::lines::{CallLine, asked_length, read_line};
use call_lines::log::{Sought, count_feeds, line_length, seek};
use std::io;
use std::io::Write;

// Prints a line with its answer; answers what is lent after it.
fn print_answered<W: Write>(
    to: &mut W,
    text: &[u8],
    scratch: &mut [u32],
    run: &mut [u32],
    out: &mut [u8],
    line: &[u8],
    lent: Lent,
) -> io::Result<Lent>
    requires lendable { Lendable lent }
    requires most_scratch_in_bounds { (most_scratch ≤ length scratch.old) × (most_run ≤ length run.old) × (answer_room text.now ≤ length out.old) }
    ensures { IfOk result (λ after. Lendable after) }
{
    let call = read_line(line);
    let n = answer_line(
        text,
        &mut scratch[..lent.scratch],
        &mut run[..lent.run],
        call,
        out,
    );
    to.write_all(&line[..asked_length(line)])?;
    to.write_all(b" -> ")?;
    to.write_all(&out[..n])?;
    to.write_all(b"\n")?;
    Ok(lend(lent, call))
}

// Every line of a log's calls.
fn print_calls<W: Write>(to: &mut W, text: &[u8], calls: &[u8]) -> io::Result<()>
    requires { length text.now ≤ 65536 }
{
    let mut scratch = [0u32; CallLine::MOST_SCRATCH as usize];
    let mut run = [0u32; CallLine::MOST_RUN as usize];
    let mut out = [0u8; 66336];
    let mut lent = lent_at_first();
    let mut at = 0;
    while at < calls.len() {
        let end = at + line_length(&calls[at..]);
        lent = print_answered(
            to,
            text,
            &mut scratch,
            &mut run,
            &mut out,
            &calls[at..end],
            lent,
        )?;
        at = end + 1;
    }
    Ok(())
}

// Says that the line that starts at `at` is no call.
fn say_no_call(rt: &impl Eprint, log: &[u8], at: usize) -> io::Result<()>
    requires { (at ≤ length log.now) × (length log.now ≤ 65536) }
{
    let number = count_feeds(&log[..at]) + 1;
    eprintln!(rt; "calls: line {number}: no call")
}

// Where the calls start: after the line --- that starts at `rule`.
fn calls_start(log: &[u8], rule: usize) -> usize
    requires { rule ≤ length log.now }
    ensures { result ≤ length log.now }
{
    if 4 < log.len() - rule {
        return rule + 4;
    }
    log.len()
}

// Prints nothing where a line is no call.
pub fn replay<W: Write>(rt: &impl Eprint, to: &mut W, log: &[u8]) -> io::Result<()>
    requires { length log.now ≤ 65536 }
{
    let rule = seek(log, Sought::Rule);
    if rule == log.len() {
        return rt.eprintln("calls: no line ---");
    }
    let first = calls_start(log, rule);
    let wrong = first + seek(&log[first..], Sought::NoCall);
    if wrong < log.len() {
        return say_no_call(rt, log, wrong);
    }
    to.write_all(&log[..rule])?;
    to.write_all(b"---\n")?;
    print_calls(to, &log[..rule], &log[first..])
}
