// Run-on's choice of place: "the first open place that can be carried out".
ghost use Rattle.std.specs.Prelude.{◌≡◌};
ghost use Rattle.calculus.specs.WellFormed.{WellFormed};
ghost use Rattle.read_tables.specs.Program.{program_in};
ghost use Rattle.run_alone.specs.Run.{config_in, RunOf, Carries};
ghost use Rattle.run_steps.specs.Dispatch.{SmallSignatures};
ghost use Rattle.run_steps.specs.Choosing.{was_carried, step_first};

use crate::dispatch::step_at;
use run_alone::outcome::Outcome;
use run_words::processes::count;

pub(crate) fn was_carried(r: Outcome) -> bool
    ensures { result ≡ was_carried r }
{
    matches!(r, Outcome::Carried(_) | Outcome::Uncaught)
}

// The step at the first place where one can be carried out, or halts the run; not open where there is no such place. A step that is
// not taken leaves the run as it was, so trying is choosing.
pub(crate) fn step_first(text: &[u8], scratch: &[u32], run: &mut [u32]) -> Outcome
    requires run_of { RunOf text.now scratch.now run.old }
    requires well_formed { WellFormed (program_in text.now scratch.now) (config_in text.now scratch.now run.old) }
    requires small_signatures { SmallSignatures (program_in text.now scratch.now) }
    ensures { Carries text.now scratch.now run.old run.new result (step_first (program_in text.now scratch.now) (config_in text.now scratch.now run.old)) }
{
    let n = count(run);
    for i in 0..n {
        let r = step_at(text, scratch, run, i);
        if was_carried(r) {
            return r;
        }
    }
    Outcome::NotOpen
}
