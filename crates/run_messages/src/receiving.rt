// A recv: as the send at its far end, or with its far end given up.
ghost use Rattle.std.specs.Prelude.{◌≡◌, ◌<◌};
ghost use Rattle.notation.specs.Reader.{name_in};
ghost use Rattle.calculus.specs.Steps.{receive};
ghost use Rattle.calculus.specs.WellFormed.{WellFormed};
ghost use Rattle.read_tables.specs.Program.{program_in};
ghost use Rattle.run_words.specs.declared.records.Far.TheVariants as far;
ghost use Rattle.run_alone.specs.Run.{config_in, process_as, RunOf, StandsAt, Carries};
ghost use Rattle.run_alone.specs.Forwarding.{far_raw};
ghost use Rattle.run_messages.specs.Receiving.{receiving_by, Answers};
ghost use Rattle.run_messages.specs.Parties.{FarAt};

use crate::messages::party_at;
use crate::sending::send;
use calculus::answers::Seen;
use check_contexts::held::{drop_end, find_end};
use notation::kinds::{SEND_LABEL, SEND_UNIT};
use run_alone::handlers::start_handler;
use run_alone::outcome::Outcome;
use run_words::far::far_end_near;
use run_words::records::{End, FOLDING, Far, Process};

// The far end is at position k of what the process at place j holds: the step is that process' send, if it sends there.
fn answer(text: &[u8], scratch: &[u32], run: &mut [u32], j: usize, k: usize) -> Outcome
    requires run_of { RunOf text.now scratch.now run.old }
    requires well_formed { WellFormed (program_in text.now scratch.now) (config_in text.now scratch.now run.old) }
    requires far_at { FarAt text.now scratch.now run.old j k }
    ensures { Answers text.now scratch.now run.old run.new j k result }
{
    let Some(from) = party_at(text, scratch, run, j, k) else {
        return Outcome::NotOpen;
    };
    let n = from.term;
    if n.kind < SEND_UNIT || SEND_LABEL < n.kind {
        return Outcome::NotOpen;
    }
    send(text, scratch, run, from.place, from.process, n)
}

// "a recv drops its channel in that step and folds up; if its process is linked, the handler starts in that step, as by a raise, and the process folds up without the link".
fn receive_nothing(
    text: &[u8],
    scratch: &[u32],
    run: &mut [u32],
    place: usize,
    p: Process,
    c: usize,
    e: End,
) -> Outcome
    requires run_of { RunOf text.now scratch.now run.old }
    requires stands_at { StandsAt text.now scratch.now run.old place p }
    requires e_value { far_raw text.now scratch.now run.old e ≡ far.GivenUp }
    ensures { Carries text.now scratch.now run.old run.new result (receiving_by text.now scratch.now run.old place p c e) }
{
    let held = drop_end(text, p.held, c);
    let q = Process {
        kind: FOLDING,
        held,
        ..p
    };
    start_handler(text, scratch, run, place, q);
    Outcome::Carried(Seen::Nothing)
}

// A recv on the channel c of the process p at a place.
pub fn receive(
    text: &[u8],
    scratch: &[u32],
    run: &mut [u32],
    place: usize,
    p: Process,
    c: usize,
) -> Outcome
    requires run_of { RunOf text.now scratch.now run.old }
    requires stands_at { StandsAt text.now scratch.now run.old place p }
    requires well_formed { WellFormed (program_in text.now scratch.now) (config_in text.now scratch.now run.old) }
    ensures { Carries text.now scratch.now run.old run.new result (receive (program_in text.now scratch.now) (config_in text.now scratch.now run.old) place (process_as text.now scratch.now p) (name_in text.now c)) }
{
    let Some(e) = find_end(text, p.held, c) else {
        return Outcome::NotOpen;
    };
    match far_end_near(run, place, e.channel, e.side) {
        Far::Process(j, k) => answer(text, scratch, run, j, k),
        Far::Outside(_) => Outcome::NotOpen,
        Far::GivenUp => receive_nothing(text, scratch, run, place, p, c, e),
    }
}
