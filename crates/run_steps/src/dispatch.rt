// The step at a place: "Which rule applies is decided by the term's kind".
ghost use Rattle.std.specs.Prelude.{◌≡◌, ◌≤◌, ◌<◌, length};
ghost use Rattle.calculus.specs.Steps.{step};
ghost use Rattle.calculus.specs.WellFormed.{WellFormed};
ghost use Rattle.read_tables.specs.Program.{program_in};
ghost use Rattle.run_words.specs.Raw.{raw_in, running_kind};
ghost use Rattle.run_messages.specs.Kinds.{fwd_kind};
ghost use Rattle.run_alone.specs.Run.{config_in, RunOf, StandsAt, Carries};
ghost use Rattle.run_steps.specs.Dispatch.{SmallSignatures, RuledBy, Waits, term_by};

use notation::kinds::{
    CALL, CANCEL, FWD, RAISE, RECV_LABEL, RECV_UNIT, SEND_LABEL, SEND_UNIT, SPAWN,
};
use notation::reading::TermNode;
use run_alone::calling::call;
use run_alone::cancelling::cancel;
use run_alone::folding::fold_up;
use run_alone::forwarding::forward;
use run_alone::leaving::leave;
use run_alone::outcome::Outcome;
use run_alone::raising::raise;
use run_alone::spawning::{SpawnTerm, spawn};
use run_alone::trying::try_both;
use run_messages::messages::running_term;
use run_messages::receiving::receive;
use run_messages::sending::send;
use run_messages::waiting::{awaits_recv, awaits_send};
use run_words::processes::{count, doing, load};
use run_words::records::{FOLDING, Process, RUNNING};

// The rule of a term that ends its process.
fn step_ending(
    text: &[u8],
    scratch: &[u32],
    run: &mut [u32],
    place: usize,
    p: Process,
    n: TermNode,
) -> Outcome
    requires run_of { RunOf text.now scratch.now run.old }
    requires stands_at { StandsAt text.now scratch.now run.old place p }
    requires small_signatures { SmallSignatures (program_in text.now scratch.now) }
    requires ruled_by { RuledBy text.now scratch.now run.old place p n × (fwd_kind ≤ n.kind) }
    ensures { Carries text.now scratch.now run.old run.new result (term_by text.now scratch.now run.old place p) }
{
    match n.kind {
        FWD => forward(text, scratch, run, place, p, n.first, n.second),
        CALL => call(text, scratch, run, place, p, n.first, n.second),
        RAISE => raise(text, scratch, run, place, p, n.third as u32),
        _ => try_both(
            text,
            scratch,
            run,
            place,
            p,
            n.second as u32,
            n.third as u32,
        ),
    }
}

// The rule of the kind of the node n, which is the term that p runs.
fn step_term(
    text: &[u8],
    scratch: &[u32],
    run: &mut [u32],
    place: usize,
    p: Process,
    n: TermNode,
) -> Outcome
    requires run_of { RunOf text.now scratch.now run.old }
    requires stands_at { StandsAt text.now scratch.now run.old place p }
    requires well_formed { WellFormed (program_in text.now scratch.now) (config_in text.now scratch.now run.old) }
    requires small_signatures { SmallSignatures (program_in text.now scratch.now) }
    requires ruled_by { RuledBy text.now scratch.now run.old place p n }
    ensures { Carries text.now scratch.now run.old run.new result (term_by text.now scratch.now run.old place p) }
{
    match n.kind {
        0 => Outcome::NotOpen,
        SEND_UNIT..=SEND_LABEL => send(text, scratch, run, place, p, n),
        CANCEL => cancel(text, scratch, run, place, p, n.first, n.third as u32),
        SPAWN => {
            let m = SpawnTerm {
                name: n.at as u32,
                node: n.first as u32,
                first: n.second as u32,
                second: n.third as u32,
            };
            spawn(text, scratch, run, place, p, m)
        }
        RECV_UNIT..=RECV_LABEL => receive(text, scratch, run, place, p, n.first),
        FWD.. => step_ending(text, scratch, run, place, p, n),
    }
}

// The step of a process that runs.
fn step_running(text: &[u8], scratch: &[u32], run: &mut [u32], place: usize, p: Process) -> Outcome
    requires run_of { RunOf text.now scratch.now run.old }
    requires stands_at { StandsAt text.now scratch.now run.old place p }
    requires well_formed { WellFormed (program_in text.now scratch.now) (config_in text.now scratch.now run.old) }
    requires small_signatures { SmallSignatures (program_in text.now scratch.now) }
    requires kind_value { p.kind ≡ running_kind }
    ensures { Carries text.now scratch.now run.old run.new result (term_by text.now scratch.now run.old place p) }
{
    match running_term(scratch, p.kind, p.pointer) {
        Some(n) => step_term(text, scratch, run, place, p, n),
        None => leave(text, scratch, run, place, p),
    }
}

// Whether the process at a place runs a send or a recv that waits for its partner, told from the words: to load it would copy all that it holds.
fn is_waiting(text: &[u8], scratch: &[u32], run: &[u32], place: usize) -> bool
    requires run_of { RunOf text.now scratch.now run.now }
    requires well_formed { WellFormed (program_in text.now scratch.now) (config_in text.now scratch.now run.now) }
    requires place_in_bounds { place < length (raw_in run.now).processes }
    ensures { Waits text.now scratch.now run.now place result }
{
    let d = doing(run, place);
    let Some(n) = running_term(scratch, d.kind, d.pointer) else {
        return false;
    };
    match n.kind {
        SEND_UNIT..=SEND_LABEL => awaits_recv(text, scratch, run, place, n),
        RECV_UNIT..=RECV_LABEL => awaits_send(text, scratch, run, place, n.first),
        _ => false,
    }
}

// The step at a place, as the calculus has it. Most places that are tried wait, so that is asked first.
pub fn step_at(text: &[u8], scratch: &[u32], run: &mut [u32], place: usize) -> Outcome
    requires run_of { RunOf text.now scratch.now run.old }
    requires well_formed { WellFormed (program_in text.now scratch.now) (config_in text.now scratch.now run.old) }
    requires small_signatures { SmallSignatures (program_in text.now scratch.now) }
    ensures { Carries text.now scratch.now run.old run.new result (step (program_in text.now scratch.now) (config_in text.now scratch.now run.old) place) }
{
    if count(run) <= place {
        return Outcome::NotOpen;
    }
    if is_waiting(text, scratch, run, place) {
        return Outcome::NotOpen;
    }
    let p = load(run, place);
    match p.kind {
        RUNNING => step_running(text, scratch, run, place, p),
        FOLDING => fold_up(text, scratch, run, place, p),
        _ => Outcome::NotOpen,
    }
}
