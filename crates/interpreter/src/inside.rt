// What the entries come to for an accepted text, whose tables are lent: refusals 16 to 22.
ghost use Rattle.std.specs.Prelude.{◌≡◌, ◌≤◌, length, Ok, OnOk, IfErr};
ghost use Rattle.notation.specs.Limits.{run_words};
ghost use Rattle.notation.specs.Refusals.{refusal};
ghost use Rattle.calculus.specs.Machine.{started, stepped, ran_on};
ghost use Rattle.check_accepted.specs.Texts.{TextIn};
ghost use Rattle.interpreter.specs.Entries.{to_start, to_step, to_run_on, HoldsRun};
ghost use Rattle.interpreter.specs.Inside.{AnswersIn, Strange};
ghost use Rattle.interpreter.specs.Stepping.{stepped_by};

use calculus::answers::{RanOn, Stepped};
use notation::refusal::Refusal;
use notation::script::Script;
use run_alone::outcome::Outcome;
use run_steps::dispatch::step_at;
use run_steps::running::steps_until;
use run_steps::starting::begin_line;
use run_wellformed::well_formed;
use run_words::halting::is_halted;
use run_words::processes::count;

// A refusal of a call by its arguments: it speaks of no byte of the text.
pub(crate) fn of_call(number: u32) -> Refusal
    ensures { result ≡ refusal number 0 }
{
    Refusal { number, at: 0 }
}

// Where a run is read: it has its words, and they are a configuration of this text.
pub(crate) fn holds_run(text: &[u8], tables: &[u32], run: &[u32]) -> Result<(), Refusal>
    requires { TextIn text.now tables.now }
    ensures ok { OnOk result ((run_words ≤ length run.now) × HoldsRun text.now run.now) }
    ensures err { IfErr result (Strange text.now run.now) }
{
    if run.len() < Script::RUN_WORDS {
        return Err(of_call(Refusal::RUN_SHORT));
    }
    if !well_formed(text, tables, run) {
        return Err(of_call(Refusal::NO_CONFIGURATION));
    }
    Ok(())
}

pub(crate) fn start_in(
    text: &[u8],
    tables: &[u32],
    run: &mut [u32],
    line: u32,
) -> Result<(), Refusal>
    requires { TextIn text.now tables.now }
    ensures { AnswersIn text.now (to_start line) run.old (started result) run.new }
{
    if run.len() < Script::RUN_WORDS {
        return Err(of_call(Refusal::RUN_SHORT));
    }
    if !begin_line(text, tables, run, line as usize) {
        return Err(of_call(Refusal::NO_LINE));
    }
    Ok(())
}

pub(crate) fn step_in(
    text: &[u8],
    tables: &[u32],
    run: &mut [u32],
    place: u32,
) -> Result<Stepped, Refusal>
    requires { TextIn text.now tables.now }
    ensures { AnswersIn text.now (to_step place) run.old (stepped result) run.new }
{
    holds_run(text, tables, run)?;
    step_placed(text, tables, run, place as usize)
}

// The step at a place of a run that holds a configuration of this text.
fn step_placed(
    text: &[u8],
    tables: &[u32],
    run: &mut [u32],
    place: usize,
) -> Result<Stepped, Refusal>
    requires text_in { TextIn text.now tables.now }
    requires run_words_in_bounds { (run_words ≤ length run.old) × HoldsRun text.now run.old }
    ensures { AnswersIn text.now (to_step place) run.old (stepped result) run.new }
{
    if is_halted(run) {
        return Err(of_call(Refusal::HALTED));
    }
    if count(run) <= place {
        return Err(of_call(Refusal::NO_PROCESS));
    }
    let o = step_at(text, tables, run, place);
    answer_of(o)
}

// A step's outcome as the entry's answer.
fn answer_of(o: Outcome) -> Result<Stepped, Refusal>
    ensures { result ≡ stepped_by o }
{
    match o {
        Outcome::Carried(seen) => Ok(Stepped::Carried(seen)),
        Outcome::Uncaught => Ok(Stepped::Uncaught),
        Outcome::NotOpen => Err(of_call(Refusal::NOT_OPEN)),
        Outcome::Lacking => Err(of_call(Refusal::LACKING)),
    }
}

pub(crate) fn run_on_in(
    text: &[u8],
    tables: &[u32],
    run: &mut [u32],
    budget: u32,
) -> Result<RanOn, Refusal>
    requires { TextIn text.now tables.now }
    ensures { AnswersIn text.now (to_run_on budget) run.old (ran_on result) run.new }
{
    holds_run(text, tables, run)?;
    let end = steps_until(text, tables, run, budget);
    Ok(end)
}
