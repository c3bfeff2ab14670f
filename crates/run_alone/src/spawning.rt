// Spawn: a process comes, and a channel between it and its maker.
ghost use Rattle.std.specs.Prelude.{◌<◌, length};
ghost use Rattle.std.proofs.Math.Option.{some};
ghost use Rattle.notation.specs.Limits.{process_places, channel_places};
ghost use Rattle.run_words.specs.Raw.{raw_in};
ghost use Rattle.run_alone.specs.Run.{RunOf, StandsAt, Carries};
ghost use Rattle.run_alone.specs.Spawning.{SpawnIn, spawned_by, spawning_by};

use crate::outcome::Outcome;
use calculus::answers::Seen;
use check_contexts::halves::{Half, half_takes, spawn_half};
use check_contexts::marks::ALL;
use notation::script::Script;
use run_words::channels::fresh_channel;
use run_words::places::insert;
use run_words::processes::{count, store};
use run_words::records::{Process, RUNNING, UNLINKED};

// A spawn: where the new name stands, the node of its type, the pointers of its halves.
#[derive(Clone, Copy)]
pub struct SpawnTerm {
    pub name: u32,
    pub node: u32,
    pub first: u32,
    pub second: u32,
}

// The halves of a spawn stand side by side, with the new channel between them.
fn spawn_on(
    text: &[u8],
    scratch: &[u32],
    run: &mut [u32],
    place: usize,
    p: Process,
    m: SpawnTerm,
    channel: u32,
) -> Outcome
    requires run_of { RunOf text.now scratch.now run.old }
    requires stands_at { StandsAt text.now scratch.now run.old place p }
    requires spawn_in { SpawnIn text.now scratch.now m p.held }
    requires run_len_bound { (length (raw_in run.old).processes < process_places) × (channel < channel_places) }
    ensures { Carries text.now scratch.now run.old run.new result (spawned_by text.now scratch.now run.old place p m (some channel)) }
{
    let h = p.held;
    let name = m.name as usize;
    let first = m.first as usize;
    let taken = half_takes(text, scratch, h, Half::OfSpawn(name, first), ALL);
    let ours = spawn_half(h, taken, m.name, m.node, true, channel);
    let made = Process {
        kind: RUNNING,
        pointer: m.first,
        link: UNLINKED,
        held: ours,
    };
    let theirs = spawn_half(h, taken, m.name, m.node, false, channel);
    let maker = Process {
        kind: RUNNING,
        pointer: m.second,
        held: theirs,
        ..p
    };
    store(run, place, maker);
    insert(run, place, made);
    Outcome::Carried(Seen::Nothing)
}

// Spawn: "A spawn's new process is P".
pub fn spawn(
    text: &[u8],
    scratch: &[u32],
    run: &mut [u32],
    place: usize,
    p: Process,
    m: SpawnTerm,
) -> Outcome
    requires run_of { RunOf text.now scratch.now run.old }
    requires stands_at { StandsAt text.now scratch.now run.old place p }
    requires spawn_in { SpawnIn text.now scratch.now m p.held }
    ensures { Carries text.now scratch.now run.old run.new result (spawning_by text.now scratch.now run.old place p m) }
{
    if Script::PROCESS_PLACES <= count(run) {
        return Outcome::Lacking;
    }
    let Some(k) = fresh_channel(run) else {
        return Outcome::Lacking;
    };
    spawn_on(text, scratch, run, place, p, m, k as u32)
}
