// The entries: each checks the text first, refusals 1 to 15, and then asks what the accepted text comes to.
ghost use Rattle.std.specs.Prelude.{◌≤◌, length};
ghost use Rattle.interpreter.specs.Entries.{Starts, Steps, RunsOn, Reports, Surveys, Names};

use crate::inside::{run_on_in, start_in, step_in};
use crate::names::exec_place;
use crate::places::places_in;
use crate::reports::report_in;
use calculus::answers::{Places, RanOn, Report, Stepped};
use check_text::check::check;
use notation::refusal::Refusal;
use notation::script::Script;
use notation::token::name_of;

// Begins the run of an exec line anew.
pub fn start(text: &[u8], scratch: &mut [u32], run: &mut [u32], line: u32) -> Result<(), Refusal>
    ensures { Starts text.now scratch.old run.old line result scratch.new run.new }
{
    check(text, scratch)?;
    start_in(text, &scratch[0..Script::SCRATCH_WORDS], run, line)
}

// Carries out the step at a place.
pub fn step(
    text: &[u8],
    scratch: &mut [u32],
    run: &mut [u32],
    place: u32,
) -> Result<Stepped, Refusal>
    ensures { Steps text.now scratch.old run.old place result scratch.new run.new }
{
    check(text, scratch)?;
    step_in(text, &scratch[0..Script::SCRATCH_WORDS], run, place)
}

// Steps until one shows something, no process is left, none can be carried out, or the budget is spent.
pub fn run_on(
    text: &[u8],
    scratch: &mut [u32],
    run: &mut [u32],
    budget: u32,
) -> Result<RanOn, Refusal>
    ensures { RunsOn text.now scratch.old run.old budget result scratch.new run.new }
{
    check(text, scratch)?;
    run_on_in(text, &scratch[0..Script::SCRATCH_WORDS], run, budget)
}

// The numbers of the outside channels still open, rising.
pub fn report(text: &[u8], scratch: &mut [u32], run: &[u32]) -> Result<Report, Refusal>
    ensures { Reports text.now scratch.old run.now result scratch.new }
{
    check(text, scratch)?;
    report_in(text, &scratch[0..Script::SCRATCH_WORDS], run)
}

// How many processes there are, and whether the step at each of their places is open.
pub fn places(text: &[u8], scratch: &mut [u32], run: &[u32]) -> Result<Places, Refusal>
    ensures { Surveys text.now scratch.old run.now result scratch.new }
{
    check(text, scratch)?;
    places_in(text, &scratch[0..Script::SCRATCH_WORDS], run)
}

// The name of an exec line's process, as the part of the text that holds it: empty where it is refused, and the refusal stands in the lent numbers.
pub fn exec_name<'a>(
    text: &'a [u8],
    scratch: &mut [u32],
    line: u32,
    number: &mut u32,
    at: &mut usize,
) -> &'a [u8]
    ensures names { Names text.now scratch.old line result.now number.new at.new scratch.new }
    ensures result_in_bounds { length result.now ≤ length text.now }
{
    match exec_place(text, scratch, line) {
        Ok(place) => {
            *number = 0;
            *at = 0;
            name_of(text, place)
        }
        Err(refusal) => {
            *number = refusal.number;
            *at = refusal.at;
            &text[0..0]
        }
    }
}
