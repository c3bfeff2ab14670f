// A send, whoever is at the far end.
ghost use Rattle.std.specs.Prelude.{◌<◌};
ghost use Rattle.calculus.specs.WellFormed.{WellFormed};
ghost use Rattle.read_tables.specs.Program.{program_in};
ghost use Rattle.run_alone.specs.Run.{config_in, RunOf, StandsAt, Carries};
ghost use Rattle.run_words.specs.Raw.{side_radix};
ghost use Rattle.read_tables.specs.Roots.{ProcessIn};
ghost use Rattle.run_messages.specs.Messages.{SendNode};
ghost use Rattle.run_messages.specs.Sending.{SendingIn, sending_by, send_by, unheard_by};

use crate::meeting::meet;
use crate::messages::{Sending, after_send};
use crate::outward::send_out;
use calculus::answers::Seen;
use check_contexts::held::find_end;
use notation::kinds::SEND_CHANNEL;
use notation::reading::TermNode;
use run_alone::outcome::Outcome;
use run_alone::parting::part;
use run_words::far::far_end_near;
use run_words::processes::store;
use run_words::records::{Far, Process, RUNNING};

// "When the far end was given up: a send goes on, and gives up a channel it would have passed".
fn send_unheard(text: &[u8], scratch: &[u32], run: &mut [u32], sent: Sending) -> Outcome
    requires run_of { RunOf text.now scratch.now run.old }
    requires sending_in { SendingIn text.now scratch.now run.old sent }
    ensures { Carries text.now scratch.now run.old run.new result (unheard_by text.now scratch.now run.old sent) }
{
    let n = sent.term;
    if n.kind != SEND_CHANNEL {
        store(run, sent.place, sent.after);
        return Outcome::Carried(Seen::Nothing);
    }
    match find_end(text, sent.before.held, n.second) {
        Some(d) => part(text, scratch, run, sent.place, sent.after, d),
        None => Outcome::NotOpen,
    }
}

// The process has sent; who is at the far end?
fn deliver(text: &[u8], scratch: &[u32], run: &mut [u32], sent: Sending) -> Outcome
    requires run_of { RunOf text.now scratch.now run.old }
    requires sending_in { SendingIn text.now scratch.now run.old sent }
    requires side_lt_side_radix { sent.over.side < side_radix }
    requires well_formed { WellFormed (program_in text.now scratch.now) (config_in text.now scratch.now run.old) }
    ensures { Carries text.now scratch.now run.old run.new result (sending_by text.now scratch.now run.old sent) }
{
    let e = sent.over;
    match far_end_near(run, sent.place, e.channel, e.side) {
        Far::Process(j, k) => meet(text, scratch, run, sent, j, k),
        Far::Outside(k) => send_out(text, scratch, run, sent, k),
        Far::GivenUp => send_unheard(text, scratch, run, sent),
    }
}

// The send n of the process p at a place.
pub fn send(
    text: &[u8],
    scratch: &[u32],
    run: &mut [u32],
    place: usize,
    p: Process,
    n: TermNode,
) -> Outcome
    requires run_of { RunOf text.now scratch.now run.old }
    requires stands_at { StandsAt text.now scratch.now run.old place p }
    requires send_node { SendNode n × ProcessIn text.now scratch.now n.third }
    requires well_formed { WellFormed (program_in text.now scratch.now) (config_in text.now scratch.now run.old) }
    ensures { Carries text.now scratch.now run.old run.new result (send_by text.now scratch.now run.old place p n) }
{
    let Some(e) = find_end(text, p.held, n.first) else {
        return Outcome::NotOpen;
    };
    let held = after_send(text, scratch, p.held, n);
    let after = Process {
        kind: RUNNING,
        pointer: n.third as u32,
        held,
        ..p
    };
    deliver(
        text,
        scratch,
        run,
        Sending {
            place,
            before: p,
            after,
            term: n,
            over: e,
        },
    )
}
