// Forwarding: the two far ends become one channel.
ghost use Rattle.notation.specs.Limits.{channel_places};
ghost use Rattle.std.specs.Prelude.{◌≡◌, ◌<◌, length};
ghost use Rattle.notation.specs.Reader.{name_in};
ghost use Rattle.calculus.specs.Steps.{joined_to, forwarding};
ghost use Rattle.run_words.specs.Raw.{raw_in, side_radix};
ghost use Rattle.run_words.specs.declared.records.Far.TheVariants as far;
ghost use Rattle.run_alone.specs.Run.{config_in, process_as, RunOf, ProcessOf, StandsAt, Becomes, Carries};
ghost use Rattle.run_alone.specs.Parting.{end_as};
ghost use Rattle.run_alone.specs.Forwarding.{Empties, far_raw, far_of, moved_over};

use crate::outcome::Outcome;
use crate::parting::part;
use calculus::answers::Seen;
use check_contexts::held::find_end;
use run_words::far::{far_end, is_given_up};
use run_words::held::{end_at, no_ends, replaced};
use run_words::outside::reroute_outside;
use run_words::processes::{load, store};
use run_words::records::{End, FOLDING, Far, Process};

// A process that is left empty.
fn emptied(p: Process) -> Process
    ensures { Empties p result }
{
    Process {
        kind: FOLDING,
        held: no_ends(),
        ..p
    }
}

// The process q stands at a place; the far end of e, which is at position k of what the process at place j holds, takes the channel of d.
fn move_far_end(
    text: &[u8],
    scratch: &[u32],
    run: &mut [u32],
    place: usize,
    q: Process,
    e: End,
    d: End,
    j: usize,
    k: usize,
)
    requires run_of { RunOf text.now scratch.now run.old }
    requires place_in_bounds { place < length (raw_in run.old).processes }
    requires process_of { ProcessOf text.now scratch.now (length (raw_in run.old).processes) q }
    requires e_value { far_raw text.now scratch.now run.old e ≡ far.Process j k }
    requires channel_lt_channel_places { d.channel < channel_places }
    ensures { Becomes text.now scratch.now run.old run.new (moved_over (config_in text.now scratch.now run.old) place (process_as text.now scratch.now q) (end_as text.now scratch.now e) (end_as text.now scratch.now d) (far_of text.now scratch.now run.old e)) }
{
    let r = load(run, j);
    let x = end_at(r.held, k);
    let y = End {
        channel: d.channel,
        ..x
    };
    let held = replaced(r.held, k, y);
    let moved = Process { held, ..r };
    store(run, place, q);
    store(run, j, moved);
}

// The far end of d was not given up: it and the far end of e are one channel, and the process is left empty.
fn join(
    text: &[u8],
    scratch: &[u32],
    run: &mut [u32],
    place: usize,
    p: Process,
    e: End,
    d: End,
) -> Outcome
    requires run_of { RunOf text.now scratch.now run.old }
    requires stands_at { StandsAt text.now scratch.now run.old place p }
    requires side_lt_side_radix { (e.side < side_radix) × (d.channel < channel_places) }
    ensures { Carries text.now scratch.now run.old run.new result (joined_to (config_in text.now scratch.now run.old) place (process_as text.now scratch.now p) (end_as text.now scratch.now e) (end_as text.now scratch.now d) (far_of text.now scratch.now run.old e)) }
{
    let q = emptied(p);
    match far_end(run, e.channel, e.side) {
        Far::Process(j, k) => move_far_end(text, scratch, run, place, q, e, d, j, k),
        Far::Outside(_) => {
            store(run, place, q);
            reroute_outside(run, e.channel, d.channel);
        }
        Far::GivenUp => store(run, place, q),
    }
    Outcome::Carried(Seen::Nothing)
}

// Fwd "makes the two far ends one channel and leaves its process empty; if one was given up, the other finds its far end given up".
pub fn forward(
    text: &[u8],
    scratch: &[u32],
    run: &mut [u32],
    place: usize,
    p: Process,
    x: usize,
    c: usize,
) -> Outcome
    requires run_of { RunOf text.now scratch.now run.old }
    requires stands_at { StandsAt text.now scratch.now run.old place p }
    ensures { Carries text.now scratch.now run.old run.new result (forwarding (config_in text.now scratch.now run.old) place (process_as text.now scratch.now p) (name_in text.now x) (name_in text.now c)) }
{
    let Some(e) = find_end(text, p.held, x) else {
        return Outcome::NotOpen;
    };
    let Some(d) = find_end(text, p.held, c) else {
        return Outcome::NotOpen;
    };
    let far = far_end(run, d.channel, d.side);
    if is_given_up(far) {
        let q = emptied(p);
        return part(text, scratch, run, place, q, e);
    }
    join(text, scratch, run, place, p, e, d)
}
