// A process folds up.
ghost use Rattle.calculus.specs.Steps.{folding_up};
ghost use Rattle.run_words.specs.Raw.{raw_in};
ghost use Rattle.run_words.specs.Bounds.{Unlinked};
ghost use Rattle.check_contexts.specs.Held.{channels_of};
ghost use Rattle.run_alone.specs.Run.{config_in, process_as, RunOf, StandsAt, Carries};

use crate::leaving::leave;
use crate::outcome::Outcome;
use crate::parting::part;
use run_words::held::{end_at, without};
use run_words::records::{FOLDING, Process};

// "A process that folds up cancels one held channel a step, oldest first, then is empty."
pub fn fold_up(text: &[u8], scratch: &[u32], run: &mut [u32], place: usize, p: Process) -> Outcome
    requires run_of { RunOf text.now scratch.now run.old }
    requires stands_at { StandsAt text.now scratch.now run.old place p }
    requires unlinked { Unlinked place (raw_in run.old).processes }
    ensures { Carries text.now scratch.now run.old run.new result (folding_up (config_in text.now scratch.now run.old) place (process_as text.now scratch.now p) (channels_of text.now scratch.now p.held)) }
{
    if p.held.count == 0 {
        return leave(text, scratch, run, place, p);
    }
    let e = end_at(p.held, 0);
    let held = without(p.held, 0);
    let q = Process {
        kind: FOLDING,
        held,
        ..p
    };
    part(text, scratch, run, place, q, e)
}
