// A send meets a recv: the receiver takes the message, and both go on; or it leaves out the label, and folds up as by a raise.
ghost use Rattle.std.specs.Prelude.{◌≡◌, ◌<◌, ◌+◌, length};
ghost use Rattle.calculus.specs.WellFormed.{WellFormed};
ghost use Rattle.read_tables.specs.Program.{program_in};
ghost use Rattle.run_words.specs.declared.records.Far.TheVariants as far;
ghost use Rattle.run_messages.specs.Kinds.{recv_channel_kind, recv_label_kind, recv_over, recv_unit_kind, send_channel_kind, send_label_kind, send_unit_kind};
ghost use Rattle.run_alone.specs.Run.{config_in, process_as, RunOf, Carries, ProcessOf, Becomes};
ghost use Rattle.run_alone.specs.Forwarding.{far_raw};
ghost use Rattle.notation.specs.Limits.{held_limit, text_limit};
ghost use Rattle.read_tables.specs.Roots.{ProcessIn};
ghost use Rattle.run_messages.specs.Sending.{SendingIn, sending_by};
ghost use Rattle.run_messages.specs.Meeting.{ReceiverIn, heard_by, both_set, both_on, sender_on, left_out, BringsOver};
ghost use Rattle.read_tables.specs.Whole.{Tables};
ghost use Rattle.run_words.specs.Raw.{raw_in, link_of};
ghost use Rattle.check_contexts.specs.Held.{HeldIn, FoundIn};

use crate::messages::{Party, Sending, came_over, move_on, party_at};
use calculus::answers::Seen;
use check_contexts::held::{bring_end, drop_end, find_end};
use check_types::branches::branch_of;
use notation::kinds::{RECV_UNIT, SEND_LABEL, SEND_UNIT};
use run_alone::outcome::Outcome;
use run_alone::raising::act_as_raise;
use run_words::processes::store;
use run_words::records::{End, FOLDING, Held, Process, RUNNING, UNLINKED};

// The recv of what a send sends is of a kind so much higher.
pub(crate) const RECEIVES: usize = RECV_UNIT - SEND_UNIT;

// The process q at a place, and then r at place j.
fn store_both(
    text: &[u8],
    scratch: &[u32],
    run: &mut [u32],
    place: usize,
    q: Process,
    j: usize,
    r: Process,
)
    requires run_of { RunOf text.now scratch.now run.old }
    requires place_in_bounds { (place < length (raw_in run.old).processes) × (j < length (raw_in run.old).processes) }
    requires process_of { ProcessOf text.now scratch.now (length (raw_in run.old).processes) q }
    requires process_of_2 { ProcessOf text.now scratch.now (length (raw_in run.old).processes) r }
    ensures { Becomes text.now scratch.now run.old run.new (both_set (config_in text.now scratch.now run.old) place (process_as text.now scratch.now q) j (process_as text.now scratch.now r)) }
{
    store(run, place, q);
    store(run, j, r);
}

// The sender goes on as its send left it, and the receiver with the term at `pointer` and what it holds now.
fn go_on(
    text: &[u8],
    scratch: &[u32],
    run: &mut [u32],
    sent: Sending,
    to: Party,
    pointer: usize,
    held: Held,
) -> Outcome
    requires run_of { RunOf text.now scratch.now run.old }
    requires sending_in { SendingIn text.now scratch.now run.old sent }
    requires receiver_in { ReceiverIn text.now scratch.now run.old to }
    requires process_in { ProcessIn text.now scratch.now pointer × HeldIn text.now scratch.now held }
    ensures { Carries text.now scratch.now run.old run.new result (both_on text.now scratch.now run.old sent to pointer held) }
{
    let r = Process {
        kind: RUNNING,
        pointer: pointer as u32,
        held,
        ..to.process
    };
    store_both(text, scratch, run, sent.place, sent.after, to.place, r);
    Outcome::Carried(Seen::Nothing)
}

// The receiver closes the channel, and goes on.
fn hear_close(text: &[u8], scratch: &[u32], run: &mut [u32], sent: Sending, to: Party) -> Outcome
    requires run_of { RunOf text.now scratch.now run.old }
    requires sending_in { SendingIn text.now scratch.now run.old sent }
    requires receiver_in { ReceiverIn text.now scratch.now run.old to }
    requires kind_value { (sent.term.kind ≡ send_unit_kind) × (to.term.kind ≡ recv_unit_kind) }
    ensures { Carries text.now scratch.now run.old run.new result (heard_by text.now scratch.now run.old sent to) }
{
    let held = drop_end(text, to.process.held, to.name);
    go_on(text, scratch, run, sent, to, to.term.third, held)
}

// With the end that was passed, if it was found and the receiver's own was: under the name at `at`, and of the type that its own lets over.
fn bring_over(
    text: &[u8],
    scratch: &[u32],
    h: Held,
    own: Option<End>,
    passed: Option<End>,
    at: u32,
) -> Held
    requires tables { Tables text.now scratch.now }
    requires held_in { HeldIn text.now scratch.now h × (h.count < held_limit) × (at < text_limit) }
    requires found_in { FoundIn text.now scratch.now own }
    requires found_in_2 { FoundIn text.now scratch.now passed }
    ensures { BringsOver text.now scratch.now h own passed at result }
{
    let Some(e) = own else {
        return h;
    };
    let Some(d) = passed else {
        return h;
    };
    let node = came_over(text, scratch, e.node as usize, d.node as usize);
    bring_end(h, at, d.side, node as u32, d.channel)
}

// The receiver takes the channel that was passed.
fn hear_channel(text: &[u8], scratch: &[u32], run: &mut [u32], sent: Sending, to: Party) -> Outcome
    requires run_of { RunOf text.now scratch.now run.old }
    requires sending_in { SendingIn text.now scratch.now run.old sent }
    requires receiver_in { ReceiverIn text.now scratch.now run.old to }
    requires kind_value { (sent.term.kind ≡ send_channel_kind) × (to.term.kind ≡ recv_channel_kind) × (to.process.held.count < held_limit) }
    ensures { Carries text.now scratch.now run.old run.new result (heard_by text.now scratch.now run.old sent to) }
{
    let n = sent.term;
    let t = to.term;
    let h = to.process.held;
    let passed = find_end(text, sent.before.held, n.second);
    let own = find_end(text, h, to.name);
    let m = move_on(text, scratch, h, n, to.name);
    let held = bring_over(text, scratch, m, own, passed, t.second as u32);
    go_on(text, scratch, run, sent, to, t.third, held)
}

// The sender goes on as its send left it, where the receiver has this link; where it has none the run halts, "and the sender stays too".
fn sender_goes_on(text: &[u8], scratch: &[u32], run: &mut [u32], sent: Sending, link: u32)
    requires run_of { RunOf text.now scratch.now run.old }
    requires sending_in { SendingIn text.now scratch.now run.old sent }
    ensures { Becomes text.now scratch.now run.old run.new (sender_on (link_of link) sent.place (process_as text.now scratch.now sent.after) (config_in text.now scratch.now run.old)) }
{
    if link != UNLINKED {
        store(run, sent.place, sent.after);
    }
}

// A label has come that the receiver leaves out: it "acts in that same step as by a raise and folds up", with what it holds now.
fn leave_out(
    text: &[u8],
    scratch: &[u32],
    run: &mut [u32],
    sent: Sending,
    to: Party,
    held: Held,
) -> Outcome
    requires run_of { RunOf text.now scratch.now run.old }
    requires sending_in { SendingIn text.now scratch.now run.old sent }
    requires receiver_in { ReceiverIn text.now scratch.now run.old to }
    requires held_in { HeldIn text.now scratch.now held }
    ensures { Carries text.now scratch.now run.old run.new result (left_out text.now scratch.now run.old sent to held) }
{
    let r = to.process;
    let q = Process {
        kind: FOLDING,
        held,
        ..r
    };
    sender_goes_on(text, scratch, run, sent, r.link);
    act_as_raise(text, scratch, run, to.place, q)
}

// The receiver goes on with the branch of the label, or leaves it out; either way its own end is of the type of the label.
fn hear_label(text: &[u8], scratch: &[u32], run: &mut [u32], sent: Sending, to: Party) -> Outcome
    requires run_of { RunOf text.now scratch.now run.old }
    requires sending_in { SendingIn text.now scratch.now run.old sent }
    requires receiver_in { ReceiverIn text.now scratch.now run.old to }
    requires kind_value { (sent.term.kind ≡ send_label_kind) × (to.term.kind ≡ recv_label_kind) }
    ensures { Carries text.now scratch.now run.old run.new result (heard_by text.now scratch.now run.old sent to) }
{
    let n = sent.term;
    let t = to.term;
    let h = to.process.held;
    let held = move_on(text, scratch, h, n, to.name);
    match branch_of(text, scratch, n.second, t.second, t.third) {
        Some(pointer) => go_on(text, scratch, run, sent, to, pointer, held),
        None => leave_out(text, scratch, run, sent, to, held),
    }
}

// The receiver takes the message.
fn hear(text: &[u8], scratch: &[u32], run: &mut [u32], sent: Sending, to: Party) -> Outcome
    requires run_of { RunOf text.now scratch.now run.old }
    requires sending_in { SendingIn text.now scratch.now run.old sent }
    requires receiver_in { ReceiverIn text.now scratch.now run.old to }
    requires kind_value { to.term.kind ≡ sent.term.kind + recv_over }
    requires count_lt_held_limit { to.term.kind ≡ recv_channel_kind → to.process.held.count < held_limit }
    ensures { Carries text.now scratch.now run.old run.new result (heard_by text.now scratch.now run.old sent to) }
{
    match sent.term.kind {
        SEND_UNIT => hear_close(text, scratch, run, sent, to),
        SEND_LABEL => hear_label(text, scratch, run, sent, to),
        _ => hear_channel(text, scratch, run, sent, to),
    }
}

// The far end is at position k of what the process at place j holds.
pub(crate) fn meet(
    text: &[u8],
    scratch: &[u32],
    run: &mut [u32],
    sent: Sending,
    j: usize,
    k: usize,
) -> Outcome
    requires run_of { RunOf text.now scratch.now run.old }
    requires sending_in { SendingIn text.now scratch.now run.old sent }
    requires well_formed { WellFormed (program_in text.now scratch.now) (config_in text.now scratch.now run.old) }
    requires over_value { far_raw text.now scratch.now run.old sent.over ≡ far.Process j k }
    ensures { Carries text.now scratch.now run.old run.new result (sending_by text.now scratch.now run.old sent) }
{
    let Some(to) = party_at(text, scratch, run, j, k) else {
        return Outcome::NotOpen;
    };
    let n = sent.term;
    if to.term.kind != n.kind + RECEIVES {
        return Outcome::NotOpen;
    }
    hear(text, scratch, run, sent, to)
}
