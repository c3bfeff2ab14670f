// Cancel: a process gives up a channel.
ghost use Rattle.notation.specs.Reader.{name_in};
ghost use Rattle.calculus.specs.Steps.{cancelling};
ghost use Rattle.read_tables.specs.Decode.{process_in};
ghost use Rattle.read_tables.specs.Roots.{ProcessIn};
ghost use Rattle.run_alone.specs.Run.{config_in, process_as, RunOf, StandsAt, Carries};

use crate::outcome::Outcome;
use crate::parting::part;
use check_contexts::held::{drop_end, find_end};
use run_words::records::{Process, RUNNING};

// Cancel: the process gives up the channel c and goes on with the term at a pointer.
pub fn cancel(
    text: &[u8],
    scratch: &[u32],
    run: &mut [u32],
    place: usize,
    p: Process,
    c: usize,
    pointer: u32,
) -> Outcome
    requires run_of { RunOf text.now scratch.now run.old }
    requires stands_at { StandsAt text.now scratch.now run.old place p }
    requires process_in { ProcessIn text.now scratch.now pointer }
    ensures { Carries text.now scratch.now run.old run.new result (cancelling (config_in text.now scratch.now run.old) place (process_as text.now scratch.now p) (name_in text.now c) (process_in text.now scratch.now pointer)) }
{
    let Some(e) = find_end(text, p.held, c) else {
        return Outcome::NotOpen;
    };
    let held = drop_end(text, p.held, c);
    let q = Process {
        kind: RUNNING,
        pointer,
        held,
        ..p
    };
    part(text, scratch, run, place, q, e)
}
