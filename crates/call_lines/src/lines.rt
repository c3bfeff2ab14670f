// What a line of a log asks for.
ghost use Rattle.std.specs.Prelude.{◌≡◌, ◌≤◌, length};
ghost use Rattle.call_lines.specs.CallLine.{number_after, call_in, asked_length, line_in};

use crate::numbers::number_in;
use crate::words::length_before;

// A call with its number, or what is lent from there on, in words.
#[derive(Clone, Copy)]
pub enum CallLine {
    Start(u32),
    Step(u32),
    Run(u32),
    Report,
    Places,
    Name(u32),
    Scratch(u32),
    RunWords(u32),
}

impl CallLine {
    // What may be lent.
    pub const MOST_SCRATCH: u32 = 16384;

    pub const MOST_RUN: u32 = 8192;
}

// The number that follows the word, where nothing else stands there.
#[tactic(auto, using(crate::specs::Reading::front_is), unfolding(crate::specs::CallLine::number_after))]
fn number_after(asked: &[u8], word: &[u8]) -> Option<u32>
    ensures { result ≡ number_after word.now asked.now }
{
    number_in(asked.strip_prefix(word)?)
}

#[tactic(auto, using(std::proofs::lemmas::Bool::Decides::nat_tests), unfolding(crate::specs::CallLine::call_in))]
fn read_call(asked: &[u8]) -> Option<CallLine>
    ensures { result ≡ call_in asked.now }
{
    if let Some(n) = number_after(asked, b"start ") {
        return Some(CallLine::Start(n));
    }
    if let Some(n) = number_after(asked, b"step ") {
        return Some(CallLine::Step(n));
    }
    if let Some(n) = number_after(asked, b"run ") {
        return Some(CallLine::Run(n));
    }
    if let Some(n) = number_after(asked, b"name ") {
        return Some(CallLine::Name(n));
    }
    if let Some(n) = number_after(asked, b"scratch ")
        && n <= CallLine::MOST_SCRATCH
    {
        return Some(CallLine::Scratch(n));
    }
    if let Some(n) = number_after(asked, b"run words ")
        && n <= CallLine::MOST_RUN
    {
        return Some(CallLine::RunWords(n));
    }
    if asked == b"report".as_slice() {
        return Some(CallLine::Report);
    }
    if asked == b"places".as_slice() {
        return Some(CallLine::Places);
    }
    None
}

// How many bytes of a line stand before the answer that follows them, if one does.
pub fn asked_length(line: &[u8]) -> usize
    ensures value { result ≡ asked_length line.now }
    ensures upper_bound { result ≤ length line.now }
{
    length_before(line, b" -> ")
}

#[tactic(auto, unfolding(crate::specs::CallLine::line_in))]
pub fn read_line(line: &[u8]) -> Option<CallLine>
    ensures { result ≡ line_in line.now }
{
    read_call(&line[..asked_length(line)])
}
