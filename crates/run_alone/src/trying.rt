// Try: a process and its handler come of one.
ghost use Rattle.calculus.specs.Steps.{trying};
ghost use Rattle.read_tables.specs.Decode.{process_in};
ghost use Rattle.read_tables.specs.Roots.{ProcessIn};
ghost use Rattle.read_tables.specs.Whole.{Tables};
ghost use Rattle.check_contexts.specs.Held.{HeldIn};
ghost use Rattle.run_alone.specs.Run.{config_in, process_as, RunOf, StandsAt, Carries};
ghost use Rattle.run_alone.specs.Trying.{TryHalf};

use crate::outcome::Outcome;
use calculus::answers::Seen;
use check_contexts::halves::{Half, half_takes, keep};
use check_contexts::marks::ALL;
use notation::script::Script;
use notation::words::wide;
use run_words::places::{insert, moved_link};
use run_words::processes::{count, store};
use run_words::records::{Held, Process, RUNNING, WAITING};

// What a half of a try takes.
fn try_half(text: &[u8], scratch: &[u32], h: Held, pointer: u32) -> Held
    requires tables { Tables text.now scratch.now }
    requires process_in { ProcessIn text.now scratch.now pointer }
    requires held_in { HeldIn text.now scratch.now h }
    ensures { TryHalf text.now scratch.now h pointer result }
{
    let p = wide(pointer);
    let taken = half_takes(text, scratch, h, Half::OfTry(p), ALL);
    keep(h, taken, true)
}

// Try: the first half goes on with a new link, and the second waits as its handler, with the old one.
pub fn try_both(
    text: &[u8],
    scratch: &[u32],
    run: &mut [u32],
    place: usize,
    p: Process,
    first: u32,
    second: u32,
) -> Outcome
    requires run_of { RunOf text.now scratch.now run.old }
    requires stands_at { StandsAt text.now scratch.now run.old place p }
    requires process_in { ProcessIn text.now scratch.now first }
    requires process_in_2 { ProcessIn text.now scratch.now second }
    ensures { Carries text.now scratch.now run.old run.new result (trying (config_in text.now scratch.now run.old) place (process_as text.now scratch.now p) (process_in text.now scratch.now first) (process_in text.now scratch.now second)) }
{
    if Script::PROCESS_PLACES <= count(run) {
        return Outcome::Lacking;
    }
    let h = p.held;
    let ours = try_half(text, scratch, h, first);
    let theirs = try_half(text, scratch, h, second);
    let link = moved_link(p.link, place, true);
    let handler = Process {
        kind: WAITING,
        pointer: second,
        link,
        held: theirs,
    };
    insert(run, place, handler);
    let q = Process {
        kind: RUNNING,
        pointer: first,
        link: (place + 2) as u32,
        held: ours,
    };
    store(run, place, q);
    Outcome::Carried(Seen::Nothing)
}
