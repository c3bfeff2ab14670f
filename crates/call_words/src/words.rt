// The words of each answer: include/epass.h says what each is.
ghost use Rattle.std.specs.Prelude.{◌≡◌, List, [], ◌∷◌, ◌++◌, ℕ, ◌+◌, ◌≤◌, length, Ok, Some, IfOk, IfErr};
ghost use Rattle.notation.specs.Token.{name_at};
ghost use Rattle.calculus.specs.Machine.{started, stepped, ran_on};
ghost use Rattle.interpreter.specs.Entries.{ZerosFrom, report_answer, places_answer, name_placed};
ghost use Rattle.call_words.specs.Words.{answer_words, as_word, seen_words, words_of, padded, filled};
ghost use Rattle.call_words.specs.Warned.{warned_words};

use crate::laying::{ANSWER_WORDS, lay};
use calculus::answers::{Missing, Places, RanOn, Report, Seen, Stepped};
use notation::refusal::Refusal;
use notation::token::name_length;

const LAST_WORD: usize = 4294967295;

// An offset or a length; past the last word, that one.
pub(crate) fn as_word(n: usize) -> u32
    ensures { result ≡ as_word n }
{
    if n < LAST_WORD {
        return n as u32;
    }
    LAST_WORD as u32
}

// The length of the label whose apostrophe stands at `at`, that one counted.
fn label_length(text: &[u8], at: usize) -> u32
    ensures { result ≡ as_word (1 + length (name_at text.now (at + 1))) }
{
    if text.len() <= at {
        return 1;
    }
    let n = name_length(text, at + 1);
    as_word(1 + n)
}

// What was seen; zeros after it.
fn seen_words(text: &[u8], seen: Seen) -> [u32; 4]
    ensures { result ≡ filled 4 (seen_words text.now seen) }
{
    match seen {
        Seen::Nothing => [0, 0, 0, 0],
        Seen::Label(n, at) => [1, n, at, label_length(text, at as usize)],
        Seen::Close(n) => [2, n, 0, 0],
        Seen::Passed(n, m, gone) => [3, n, m, gone as u32],
        Seen::Cancelled(n) => [4, n, 0, 0],
    }
}

// So many words, and zeros after them.
pub(crate) fn padded(told: &[u32]) -> [u32; ANSWER_WORDS]
    requires { length told.now ≤ answer_words }
    ensures { result ≡ padded told.now }
{
    joined(&[], told)
}

// Words, others that follow them, and zeros.
fn joined(first: &[u32], then: &[u32]) -> [u32; ANSWER_WORDS]
    requires { length first.now + length then.now ≤ answer_words }
    ensures { result ≡ padded (first.now ++ then.now) }
{
    let mut words = [0u32; ANSWER_WORDS];
    lay(&mut words, 0, first);
    lay(&mut words, first.len(), then);
    words
}

// A refusal: its number and its offset.
pub(crate) fn refused_words(e: Refusal) -> [u32; ANSWER_WORDS]
    ensures { result ≡ padded (e.number ∷ as_word e.at ∷ []) }
{
    padded(&[e.number, as_word(e.at)])
}

pub(crate) fn started_words(answer: Result<(), Refusal>) -> [u32; ANSWER_WORDS]
    ensures { (s : List ℕ) (i : ℕ) → result ≡ padded (words_of s i (started answer)) }
{
    match answer {
        Ok(_) => padded(&[0]),
        Err(e) => refused_words(e),
    }
}

// A step that was taken.
fn step_words(text: &[u8], step: Stepped) -> [u32; ANSWER_WORDS]
    ensures { (i : ℕ) → result ≡ padded (words_of text.now i (stepped (Ok step))) }
{
    match step {
        Stepped::Carried(seen) => joined(&[0], &seen_words(text, seen)),
        Stepped::Uncaught => padded(&[0, 5]),
    }
}

pub(crate) fn stepped_words(text: &[u8], answer: Result<Stepped, Refusal>) -> [u32; ANSWER_WORDS]
    ensures { (i : ℕ) → result ≡ padded (words_of text.now i (stepped answer)) }
{
    match answer {
        Ok(step) => step_words(text, step),
        Err(e) => refused_words(e),
    }
}

// How a run-on ended.
fn end_words(text: &[u8], end: RanOn) -> [u32; ANSWER_WORDS]
    ensures { (i : ℕ) → result ≡ padded (words_of text.now i (ran_on (Ok end))) }
{
    match end {
        RanOn::Shown(seen, steps) => joined(&[0, 1, steps], &seen_words(text, seen)),
        RanOn::Done(steps) => padded(&[0, 2, steps]),
        RanOn::Full(steps) => padded(&[0, 3, steps]),
        RanOn::Stopped(steps) => padded(&[0, 4, steps]),
        RanOn::Uncaught(steps) => padded(&[0, 5, steps]),
    }
}

pub(crate) fn ran_on_words(text: &[u8], answer: Result<RanOn, Refusal>) -> [u32; ANSWER_WORDS]
    ensures { (i : ℕ) → result ≡ padded (words_of text.now i (ran_on answer)) }
{
    match answer {
        Ok(end) => end_words(text, end),
        Err(e) => refused_words(e),
    }
}

pub(crate) fn report_words(report: Result<Report, Refusal>) -> [u32; ANSWER_WORDS]
    requires { IfOk report (λ r. ZerosFrom r.open r.numbers) }
    ensures { (s : List ℕ) (i : ℕ) → result ≡ padded (words_of s i (report_answer report)) }
{
    match report {
        Ok(r) => joined(&[0, r.open], &r.numbers),
        Err(e) => refused_words(e),
    }
}

pub(crate) fn places_words(places: Result<Places, Refusal>) -> [u32; ANSWER_WORDS]
    requires { IfOk places (λ p. ZerosFrom p.processes p.steps) }
    ensures { (s : List ℕ) (i : ℕ) → result ≡ padded (words_of s i (places_answer places)) }
{
    match places {
        Ok(p) => joined(&[0, p.processes], &p.steps),
        Err(e) => refused_words(e),
    }
}

// The name that stands at a place, which is where the line that was asked for says.
pub(crate) fn name_words(text: &[u8], place: Result<usize, Refusal>) -> [u32; ANSWER_WORDS]
    ensures { (i : ℕ) → IfOk place (λ at. at ≡ i) → IfErr place (λ e. 1 ≤ e.number) → result ≡ padded (words_of text.now i (name_placed text.now place)) }
{
    match place {
        Ok(at) => padded(&[0, as_word(at), name_word(text, at)]),
        Err(e) => refused_words(e),
    }
}

// The length of the name that stands at `at`.
fn name_word(text: &[u8], at: usize) -> u32
    ensures { result ≡ as_word (length (name_at text.now at)) }
{
    as_word(name_length(text, at))
}

// A warning: where its three names stand, and how long they are.
fn missing_words(text: &[u8], m: Missing) -> [u32; 7]
    ensures { 0 ∷ result ≡ warned_words text.now (Ok (Some m)) }
{
    [
        1,
        as_word(m.process),
        name_word(text, m.process),
        as_word(m.channel),
        name_word(text, m.channel),
        as_word(m.label),
        label_length(text, m.label),
    ]
}

// The warning that was found, or that there is none.
fn found_words(text: &[u8], found: Option<Missing>) -> [u32; ANSWER_WORDS]
    ensures { result ≡ padded (warned_words text.now (Ok found)) }
{
    match found {
        Some(m) => joined(&[0], &missing_words(text, m)),
        None => padded(&[0, 0]),
    }
}

pub(crate) fn warned_words(
    text: &[u8],
    answer: Result<Option<Missing>, Refusal>,
) -> [u32; ANSWER_WORDS]
    ensures { result ≡ padded (warned_words text.now answer) }
{
    match answer {
        Ok(found) => found_words(text, found),
        Err(e) => refused_words(e),
    }
}
