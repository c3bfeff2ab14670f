// The entries for C and Rust, flat: the answer is written to lent words, which include/epass.h lays out, and the refusal's number returned.
ghost use Rattle.std.specs.Prelude.{[]};
ghost use Rattle.interpreter.specs.Entries.{to_start, to_step, to_run_on, to_report, to_places, to_name};
ghost use Rattle.call_words.specs.Exported.{Exported};
ghost use Rattle.call_words.specs.Warned.{WarningExported};

use crate::laying::{ANSWER_SHORT, ANSWER_WORDS, tell};
use crate::words::{
    name_words, places_words, ran_on_words, report_words, started_words, stepped_words,
    warned_words,
};
use interpreter::entries::{places, report, run_on, start, step};
use interpreter::names::exec_place;
use interpreter::warnings::warning;

#[unsafe(no_mangle)]
pub extern "C" fn epass_start(
    text: &[u8],
    scratch: &mut [u32],
    run: &mut [u32],
    line: u32,
    answer: &mut [u32],
) -> u32
    ensures { Exported text.now (to_start line) scratch.old run.old answer.old result scratch.new run.new answer.new }
{
    if answer.len() < ANSWER_WORDS {
        return ANSWER_SHORT;
    }
    let told = start(text, scratch, run, line);
    tell(answer, started_words(told))
}

#[unsafe(no_mangle)]
pub extern "C" fn epass_step(
    text: &[u8],
    scratch: &mut [u32],
    run: &mut [u32],
    place: u32,
    answer: &mut [u32],
) -> u32
    ensures { Exported text.now (to_step place) scratch.old run.old answer.old result scratch.new run.new answer.new }
{
    if answer.len() < ANSWER_WORDS {
        return ANSWER_SHORT;
    }
    let told = step(text, scratch, run, place);
    tell(answer, stepped_words(text, told))
}

#[unsafe(no_mangle)]
pub extern "C" fn epass_run_on(
    text: &[u8],
    scratch: &mut [u32],
    run: &mut [u32],
    budget: u32,
    answer: &mut [u32],
) -> u32
    ensures { Exported text.now (to_run_on budget) scratch.old run.old answer.old result scratch.new run.new answer.new }
{
    if answer.len() < ANSWER_WORDS {
        return ANSWER_SHORT;
    }
    let told = run_on(text, scratch, run, budget);
    tell(answer, ran_on_words(text, told))
}

#[unsafe(no_mangle)]
pub extern "C" fn epass_report(
    text: &[u8],
    scratch: &mut [u32],
    run: &[u32],
    answer: &mut [u32],
) -> u32
    ensures { Exported text.now to_report scratch.old run.now answer.old result scratch.new run.now answer.new }
{
    if answer.len() < ANSWER_WORDS {
        return ANSWER_SHORT;
    }
    let told = report(text, scratch, run);
    tell(answer, report_words(told))
}

#[unsafe(no_mangle)]
pub extern "C" fn epass_places(
    text: &[u8],
    scratch: &mut [u32],
    run: &[u32],
    answer: &mut [u32],
) -> u32
    ensures { Exported text.now to_places scratch.old run.now answer.old result scratch.new run.now answer.new }
{
    if answer.len() < ANSWER_WORDS {
        return ANSWER_SHORT;
    }
    let told = places(text, scratch, run);
    tell(answer, places_words(told))
}

#[unsafe(no_mangle)]
pub extern "C" fn epass_exec_name(
    text: &[u8],
    scratch: &mut [u32],
    line: u32,
    answer: &mut [u32],
) -> u32
    ensures { Exported text.now (to_name line) scratch.old [] answer.old result scratch.new [] answer.new }
{
    if answer.len() < ANSWER_WORDS {
        return ANSWER_SHORT;
    }
    let place = exec_place(text, scratch, line);
    tell(answer, name_words(text, place))
}

#[unsafe(no_mangle)]
pub extern "C" fn epass_warning(
    text: &[u8],
    scratch: &mut [u32],
    number: u32,
    answer: &mut [u32],
) -> u32
    ensures { WarningExported text.now scratch.old number answer.old result scratch.new answer.new }
{
    if answer.len() < ANSWER_WORDS {
        return ANSWER_SHORT;
    }
    let told = warning(text, scratch, number);
    tell(answer, warned_words(text, told))
}
