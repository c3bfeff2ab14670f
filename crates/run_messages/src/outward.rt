// A send on a channel that the outside uses.
ghost use Rattle.std.specs.Prelude.{◌≡◌, ◌<◌, ◌+◌, ◌≤◌, length};
ghost use Rattle.calculus.specs.WellFormed.{WellFormed};
ghost use Rattle.read_tables.specs.Program.{program_in};
ghost use Rattle.run_words.specs.declared.records.Far.TheVariants as far;
ghost use Rattle.run_messages.specs.Kinds.{send_channel_kind};
ghost use Rattle.run_alone.specs.Run.{config_in, RunOf, Carries, Becomes};
ghost use Rattle.run_alone.specs.Forwarding.{far_raw};
ghost use Rattle.run_messages.specs.Sending.{SendingIn, sending_by};
ghost use Rattle.run_words.specs.Raw.{raw_in};
ghost use Rattle.notation.specs.Limits.{outside_numbers};
ghost use Rattle.check_contexts.specs.Held.{EndIn};
ghost use Rattle.run_words.specs.Values.{end_in};
ghost use Rattle.run_alone.specs.Parting.{end_as};
ghost use Rattle.run_messages.specs.Outward.{OutsideIn, out_by, numbered, passed_by};

use crate::messages::{Sending, after_message, came_over};
use calculus::answers::Seen;
use check_contexts::held::find_end;
use notation::kinds::{SEND_CHANNEL, SEND_UNIT};
use notation::script::Script;
use run_alone::outcome::Outcome;
use run_words::far::{far_end, is_given_up};
use run_words::outside::{append_outside, given, let_go, outside_at, retype_outside, set_given};
use run_words::processes::store;
use run_words::records::{End, Outside};

// The notation's limit, as a word.
const OUTSIDE_NUMBERS: u32 = Script::OUTSIDE_NUMBERS as u32;

// A close or a label goes to the outside, over its channel o.
fn send_shown(text: &[u8], scratch: &[u32], run: &mut [u32], sent: Sending, o: Outside) -> Outcome
    requires run_of { RunOf text.now scratch.now run.old }
    requires sending_in { SendingIn text.now scratch.now run.old sent }
    requires outside_in { OutsideIn text.now scratch.now run.old sent.over.channel o }
    requires fact { sent.term.kind ≡ send_channel_kind → ⊥ }
    ensures { Carries text.now scratch.now run.old run.new result (out_by text.now scratch.now run.old sent o.number) }
{
    let n = sent.term;
    let e = sent.over;
    store(run, sent.place, sent.after);
    if n.kind == SEND_UNIT {
        let_go(run, e.channel);
        return Outcome::Carried(Seen::Close(o.number));
    }
    let node = after_message(text, scratch, n, o.node as usize);
    retype_outside(run, e.channel, node as u32);
    Outcome::Carried(Seen::Label(o.number, n.second as u32))
}

// The end d is passed out under the number m, the next one; the outside lets go at once of one that was given up.
fn number_out(text: &[u8], scratch: &[u32], run: &mut [u32], m: u32, d: End, gone: bool)
    requires run_of { RunOf text.now scratch.now run.old }
    requires m_value { (m ≡ (raw_in run.old).given) × (m < outside_numbers) × (length (raw_in run.old).outside < outside_numbers) }
    requires end_in { EndIn text.now scratch.now (end_in d) }
    ensures { Becomes text.now scratch.now run.old run.new (numbered (config_in text.now scratch.now run.old) (end_as text.now scratch.now d) gone) }
{
    set_given(run, m + 1);
    if !gone {
        append_outside(
            run,
            Outside {
                number: m,
                node: d.node,
                channel: d.channel,
            },
        );
    }
}

// The end d is passed out under the number m, over the outside's channel o, which says the type that it then has.
fn pass_numbered(
    text: &[u8],
    scratch: &[u32],
    run: &mut [u32],
    sent: Sending,
    o: Outside,
    m: u32,
    d: End,
    gone: bool,
) -> Outcome
    requires run_of { RunOf text.now scratch.now run.old }
    requires sending_in { SendingIn text.now scratch.now run.old sent }
    requires m_value { (m ≡ (raw_in run.old).given) × (m < outside_numbers) × (length (raw_in run.old).outside < outside_numbers) }
    requires outside_in { OutsideIn text.now scratch.now run.old sent.over.channel o × (sent.term.kind ≡ send_channel_kind) }
    requires end_in { EndIn text.now scratch.now (end_in d) }
    ensures { Carries text.now scratch.now run.old run.new result (passed_by text.now scratch.now run.old sent o.number d gone) }
{
    let left = after_message(text, scratch, sent.term, o.node as usize);
    let what = came_over(text, scratch, o.node as usize, d.node as usize);
    let out = End {
        node: what as u32,
        ..d
    };
    store(run, sent.place, sent.after);
    retype_outside(run, sent.over.channel, left as u32);
    number_out(text, scratch, run, m, out, gone);
    Outcome::Carried(Seen::Passed(o.number, m, gone))
}

// "a channel passed out takes the next outside number".
fn pass_out(text: &[u8], scratch: &[u32], run: &mut [u32], sent: Sending, o: Outside) -> Outcome
    requires run_of { RunOf text.now scratch.now run.old }
    requires sending_in { SendingIn text.now scratch.now run.old sent }
    requires outside_in { OutsideIn text.now scratch.now run.old sent.over.channel o }
    requires run_len_bound { length (raw_in run.old).outside ≤ (raw_in run.old).given }
    requires kind_value { sent.term.kind ≡ send_channel_kind }
    ensures { Carries text.now scratch.now run.old run.new result (out_by text.now scratch.now run.old sent o.number) }
{
    let Some(d) = find_end(text, sent.before.held, sent.term.second) else {
        return Outcome::NotOpen;
    };
    let m = given(run);
    if OUTSIDE_NUMBERS <= m {
        return Outcome::Lacking;
    }
    let far = far_end(run, d.channel, d.side);
    let gone = is_given_up(far);
    pass_numbered(text, scratch, run, sent, o, m, d, gone)
}

// The far end is the outside's, at position k of its channels.
pub(crate) fn send_out(
    text: &[u8],
    scratch: &[u32],
    run: &mut [u32],
    sent: Sending,
    k: usize,
) -> Outcome
    requires run_of { RunOf text.now scratch.now run.old }
    requires sending_in { SendingIn text.now scratch.now run.old sent }
    requires well_formed { WellFormed (program_in text.now scratch.now) (config_in text.now scratch.now run.old) }
    requires over_value { far_raw text.now scratch.now run.old sent.over ≡ far.Outside k }
    ensures { Carries text.now scratch.now run.old run.new result (sending_by text.now scratch.now run.old sent) }
{
    let o = outside_at(run, k);
    if sent.term.kind == SEND_CHANNEL {
        pass_out(text, scratch, run, sent, o)
    } else {
        send_shown(text, scratch, run, sent, o)
    }
}
