// The words that a log of calls has for an answer, put from `at` on: a function for each kind of answer.
ghost use Rattle.std.specs.Prelude.{◌+◌, ◌*◌, ◌≤◌, length};
ghost use Rattle.print_bytes.specs.Writing.{Appended};
ghost use Rattle.print_answers.specs.Answers.{started_words, stepped_words, steps_words, ran_on_words, reported_words, surveyed_words, named_words};

use crate::lists::{put_numbers, put_places};
use crate::parts::{put_refused, put_seen};
use calculus::answers::{RanOn, Stepped};
use notation::refusal::Refusal;
use print_bytes::writing::{put, put_decimal};

#[tactic(auto, unfolding(crate::specs::Answers::started_words))]
pub fn put_started(out: &mut [u8], at: usize, answer: Result<(), Refusal>) -> usize
    requires { at + 32 ≤ length out.old }
    ensures { Appended out.old out.new at result (started_words answer) }
{
    match answer {
        Ok(()) => put(out, at, b"started"),
        Err(refusal) => put_refused(out, at, refusal),
    }
}

#[tactic(auto, unfolding(crate::specs::Answers::stepped_words))]
pub fn put_stepped(
    text: &[u8],
    out: &mut [u8],
    at: usize,
    answer: Result<Stepped, Refusal>,
) -> usize
    requires { at + length text.now + 59 ≤ length out.old }
    ensures { Appended out.old out.new at result (stepped_words text.now answer) }
{
    match answer {
        Ok(Stepped::Carried(seen)) => {
            let a = put(out, at, b"carried out");
            put_seen(text, out, a, seen)
        }
        Ok(Stepped::Uncaught) => put(out, at, b"uncaught"),
        Err(refusal) => put_refused(out, at, refusal),
    }
}

// How many steps a run-on took, and how it ended.
fn put_steps(out: &mut [u8], at: usize, steps: u32, how: &[u8]) -> usize
    requires { at + 18 + length how.now ≤ length out.old }
    ensures appended { Appended out.old out.new at result (steps_words steps how.now) }
    ensures upper_bound { result ≤ at + 18 + length how.now }
{
    let a = put_decimal(out, at, steps as usize);
    let b = put(out, a, b" steps, ");
    put(out, b, how)
}

#[tactic(auto, unfolding(crate::specs::Answers::ran_on_words))]
pub fn put_ran_on(text: &[u8], out: &mut [u8], at: usize, answer: Result<RanOn, Refusal>) -> usize
    requires { at + length text.now + 70 ≤ length out.old }
    ensures { Appended out.old out.new at result (ran_on_words text.now answer) }
{
    match answer {
        Ok(RanOn::Shown(seen, steps)) => {
            let a = put_steps(out, at, steps, b"seen");
            put_seen(text, out, a, seen)
        }
        Ok(RanOn::Done(steps)) => put_steps(out, at, steps, b"done"),
        Ok(RanOn::Full(steps)) => put_steps(out, at, steps, b"full"),
        Ok(RanOn::Stopped(steps)) => put_steps(out, at, steps, b"stopped"),
        Ok(RanOn::Uncaught(steps)) => put_steps(out, at, steps, b"uncaught"),
        Err(refusal) => put_refused(out, at, refusal),
    }
}

// With the numbers that the report lists.
#[tactic(auto, unfolding(crate::specs::Answers::reported_words))]
pub fn put_reported(
    out: &mut [u8],
    at: usize,
    answer: Result<u32, Refusal>,
    numbers: &[u32],
) -> usize
    requires { at + 32 + 11 * length numbers.now ≤ length out.old }
    ensures { Appended out.old out.new at result (reported_words answer numbers.now) }
{
    match answer {
        Ok(_) => {
            let a = put(out, at, b"open");
            put_numbers(out, a, numbers)
        }
        Err(refusal) => put_refused(out, at, refusal),
    }
}

// How many processes there are, with what the step at each of their places is.
#[tactic(auto, unfolding(crate::specs::Answers::surveyed_words))]
pub fn put_surveyed(out: &mut [u8], at: usize, answer: Result<u32, Refusal>, steps: &[u32]) -> usize
    requires { at + 32 + 6 * length steps.now ≤ length out.old }
    ensures { Appended out.old out.new at result (surveyed_words answer steps.now) }
{
    match answer {
        Ok(processes) => {
            let a = put_decimal(out, at, processes as usize);
            let b = put(out, a, b" processes");
            put_places(out, b, steps)
        }
        Err(refusal) => put_refused(out, at, refusal),
    }
}

// The name of an exec line's process; the number is 0 where it is no refusal.
#[tactic(auto, unfolding(crate::specs::Answers::named_words))]
pub fn put_named(out: &mut [u8], at: usize, name: &[u8], number: u32, offset: usize) -> usize
    requires { at + length name.now + 32 ≤ length out.old }
    ensures { Appended out.old out.new at result (named_words name.now number offset) }
{
    if number == 0 {
        return put(out, at, name);
    }
    put_refused(out, at, Refusal { number, at: offset })
}
