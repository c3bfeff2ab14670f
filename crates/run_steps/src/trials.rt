// Steps that are only tried, on a copy of the run.
ghost use Rattle.std.specs.Prelude.{◌≡◌, ◌≤◌, length};
ghost use Rattle.notation.specs.Limits.{run_words};
ghost use Rattle.calculus.specs.Named.{is_some};
ghost use Rattle.calculus.specs.Runs.{choose_place};
ghost use Rattle.calculus.specs.WellFormed.{WellFormed};
ghost use Rattle.read_tables.specs.Program.{program_in};
ghost use Rattle.run_alone.specs.Run.{config_in, RunOf};
ghost use Rattle.run_steps.specs.Dispatch.{SmallSignatures};
ghost use Rattle.run_steps.specs.Trials.{CopyOf};
ghost use Rattle.calculus.specs.Runs.{openness};
ghost use Rattle.calculus.specs.Steps.{step};
ghost use Rattle.run_steps.specs.Trials.{openness_by};

use crate::choosing::{step_first, was_carried};
use crate::dispatch::step_at;
use notation::script::Script;
use run_alone::outcome::Outcome;
use run_words::halting::is_halted;

// The words of a run.
fn copy_of(run: &[u32]) -> [u32; Script::RUN_WORDS]
    requires { run_words ≤ length run.now }
    ensures { CopyOf run.now result }
{
    let mut w = [0u32; Script::RUN_WORDS];
    w.copy_from_slice(&run[..Script::RUN_WORDS]);
    w
}

// A step can be carried out at some place.
pub(crate) fn can_go_on(text: &[u8], scratch: &[u32], run: &[u32]) -> bool
    requires run_of { RunOf text.now scratch.now run.now }
    requires well_formed { WellFormed (program_in text.now scratch.now) (config_in text.now scratch.now run.now) }
    requires small_signatures { SmallSignatures (program_in text.now scratch.now) }
    ensures { result ≡ is_some (choose_place (program_in text.now scratch.now) (config_in text.now scratch.now run.now)) }
{
    let mut copy = copy_of(run);
    was_carried(step_first(text, scratch, &mut copy))
}

// What a step's outcome says of its place, in a run that has not halted: not open 0, open 1, open but lacking 2.
fn openness(o: Outcome) -> u32
    ensures { result ≡ openness_by o }
{
    match o {
        Outcome::NotOpen => 0,
        Outcome::Carried(_) | Outcome::Uncaught => 1,
        Outcome::Lacking => 2,
    }
}

// The same of the step at a place: in a halted run none is open.
pub fn openness_at(text: &[u8], scratch: &[u32], run: &[u32], place: usize) -> u32
    requires run_of { RunOf text.now scratch.now run.now }
    requires well_formed { WellFormed (program_in text.now scratch.now) (config_in text.now scratch.now run.now) }
    requires small_signatures { SmallSignatures (program_in text.now scratch.now) }
    ensures { result ≡ openness (config_in text.now scratch.now run.now).halted (step (program_in text.now scratch.now) (config_in text.now scratch.now run.now) place) }
{
    if is_halted(run) {
        return 0;
    }
    let mut copy = copy_of(run);
    openness(step_at(text, scratch, &mut copy, place))
}
