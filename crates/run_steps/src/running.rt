// The run-on loop: "until the run has halted, a step shows something, no process is left, none can be carried out, or its budget is spent, tested in that order
// before each step".
ghost use Rattle.std.specs.Prelude.{◌≡◌, false};
ghost use Rattle.calculus.specs.Runs.{run_from, run_on};
ghost use Rattle.calculus.specs.WellFormed.{WellFormed};
ghost use Rattle.calculus.specs.declared.answers.Seen.TheVariants.{Nothing};
ghost use Rattle.calculus.specs.Typing.{Bodies};
ghost use Rattle.read_tables.specs.Program.{program_in};
ghost use Rattle.run_alone.specs.Run.{config_in, RunOf};
ghost use Rattle.run_steps.specs.Dispatch.{SmallSignatures};
ghost use Rattle.run_steps.specs.Running.{shows, RunsOn};
ghost use Rattle.run_steps.specs.Within.{RunsBy};

use crate::choosing::step_first;
use crate::trials::can_go_on;
use calculus::answers::{RanOn, Seen};
use run_alone::outcome::Outcome;
use run_words::halting::is_halted;
use run_words::processes::count;

fn shows(seen: Seen) -> bool
    ensures { result ≡ shows seen }
{
    !matches!(seen, Seen::Nothing)
}

// The steps of a budget, in a run that has not halted; no answer where it is spent and nothing was shown.
fn steps_within(text: &[u8], scratch: &[u32], run: &mut [u32], budget: u32) -> Option<RanOn>
    requires run_of { RunOf text.now scratch.now run.old }
    requires well_formed { WellFormed (program_in text.now scratch.now) (config_in text.now scratch.now run.old) }
    requires bodies { Bodies (program_in text.now scratch.now) }
    requires run_value { (config_in text.now scratch.now run.old).halted ≡ false }
    ensures { RunsBy text.now scratch.now run.old run.new budget result }
{
    for taken in 0..budget {
        if count(run) == 0 {
            return Some(RanOn::Done(taken));
        }
        match step_first(text, scratch, run) {
            Outcome::Carried(seen) => {
                if shows(seen) {
                    return Some(RanOn::Shown(seen, taken + 1));
                }
            }
            Outcome::Uncaught => return Some(RanOn::Uncaught(taken + 1)),
            Outcome::NotOpen | Outcome::Lacking => return Some(RanOn::Full(taken)),
        }
    }
    None
}

// With the budget spent, the tests before the next step of a run that has not halted: no process is left, none can be carried out.
fn spent(text: &[u8], scratch: &[u32], run: &[u32], taken: u32) -> RanOn
    requires run_of { RunOf text.now scratch.now run.now }
    requires well_formed { WellFormed (program_in text.now scratch.now) (config_in text.now scratch.now run.now) }
    requires small_signatures { SmallSignatures (program_in text.now scratch.now) }
    requires run_value { (config_in text.now scratch.now run.now).halted ≡ false }
    ensures { result ≡ (run_from (program_in text.now scratch.now) 0 taken Nothing (config_in text.now scratch.now run.now)).answer }
{
    if count(run) == 0 {
        return RanOn::Done(taken);
    }
    if can_go_on(text, scratch, run) {
        return RanOn::Stopped(taken);
    }
    RanOn::Full(taken)
}

// Run-on.
pub fn steps_until(text: &[u8], scratch: &[u32], run: &mut [u32], budget: u32) -> RanOn
    requires run_of { RunOf text.now scratch.now run.old }
    requires well_formed { WellFormed (program_in text.now scratch.now) (config_in text.now scratch.now run.old) }
    requires bodies { Bodies (program_in text.now scratch.now) }
    ensures { RunsOn text.now scratch.now run.old run.new result (run_on (program_in text.now scratch.now) (config_in text.now scratch.now run.old) budget) }
{
    if is_halted(run) {
        return RanOn::Uncaught(0);
    }
    match steps_within(text, scratch, run, budget) {
        Some(r) => r,
        None => spent(text, scratch, run, budget),
    }
}
