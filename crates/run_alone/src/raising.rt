// Raise: a process goes on without its handler, or halts the run.
ghost use Rattle.std.specs.Prelude.{◌<◌, length};
ghost use Rattle.calculus.specs.Steps.{caught_by, raising};
ghost use Rattle.read_tables.specs.Decode.{process_in};
ghost use Rattle.read_tables.specs.Roots.{ProcessIn};
ghost use Rattle.run_words.specs.Raw.{raw_in, link_of};
ghost use Rattle.run_alone.specs.Run.{config_in, process_as, RunOf, ProcessOf, StandsAt, Carries};

use crate::handlers::start_handler;
use crate::outcome::Outcome;
use calculus::answers::Seen;
use run_words::halting::set_halted;
use run_words::records::{Process, RUNNING, UNLINKED};

// The process p at a place acts as by a raise: the handler starts, and the process stands there without link; where there is no link the run halts.
pub fn act_as_raise(
    text: &[u8],
    scratch: &[u32],
    run: &mut [u32],
    place: usize,
    p: Process,
) -> Outcome
    requires run_of { RunOf text.now scratch.now run.old }
    requires place_in_bounds { place < length (raw_in run.old).processes }
    requires process_of { ProcessOf text.now scratch.now (length (raw_in run.old).processes) p }
    ensures { Carries text.now scratch.now run.old run.new result (caught_by (link_of p.link) (config_in text.now scratch.now run.old) place (process_as text.now scratch.now p)) }
{
    if p.link == UNLINKED {
        set_halted(run);
        return Outcome::Uncaught;
    }
    start_handler(text, scratch, run, place, p);
    Outcome::Carried(Seen::Nothing)
}

// Raise: the handler starts, and the process goes on with the term at a pointer, without link; where there is no link the run halts.
pub fn raise(
    text: &[u8],
    scratch: &[u32],
    run: &mut [u32],
    place: usize,
    p: Process,
    pointer: u32,
) -> Outcome
    requires run_of { RunOf text.now scratch.now run.old }
    requires stands_at { StandsAt text.now scratch.now run.old place p }
    requires process_in { ProcessIn text.now scratch.now pointer }
    ensures { Carries text.now scratch.now run.old run.new result (raising (config_in text.now scratch.now run.old) place (process_as text.now scratch.now p) (process_in text.now scratch.now pointer)) }
{
    let q = Process {
        kind: RUNNING,
        pointer,
        ..p
    };
    act_as_raise(text, scratch, run, place, q)
}
