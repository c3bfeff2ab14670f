// An empty process leaves the list.
ghost use Rattle.calculus.specs.Steps.{leaving};
ghost use Rattle.run_words.specs.Raw.{raw_in};
ghost use Rattle.run_words.specs.Bounds.{Unlinked};
ghost use Rattle.run_alone.specs.Run.{config_in, process_as, RunOf, StandsAt, Carries};

use crate::handlers::change_handler;
use crate::outcome::Outcome;
use calculus::answers::Seen;
use run_words::places::remove;
use run_words::records::Process;

// "An empty process steps by leaving the list. Its handler, if linked, then folds up, keeping its own link."
pub fn leave(text: &[u8], scratch: &[u32], run: &mut [u32], place: usize, p: Process) -> Outcome
    requires run_of { RunOf text.now scratch.now run.old }
    requires stands_at { StandsAt text.now scratch.now run.old place p }
    requires unlinked { Unlinked place (raw_in run.old).processes }
    ensures { Carries text.now scratch.now run.old run.new result (leaving (config_in text.now scratch.now run.old) place (process_as text.now scratch.now p)) }
{
    change_handler(text, scratch, run, p.link, false);
    remove(run, place);
    Outcome::Carried(Seen::Nothing)
}
