// A recv that waits for a send, or a send for a recv, told from the words of the run: no process is loaded.
ghost use Rattle.std.specs.Prelude.{◌≤◌, ◌<◌, length};
ghost use Rattle.notation.specs.Limits.{run_words, held_limit, process_places};
ghost use Rattle.calculus.specs.WellFormed.{WellFormed};
ghost use Rattle.read_tables.specs.Program.{program_in};
ghost use Rattle.run_words.specs.Raw.{raw_in, held_count};
ghost use Rattle.run_words.specs.Values.{value_of};
ghost use Rattle.check_contexts.specs.Held.{Sees};
ghost use Rattle.run_alone.specs.Run.{config_in, RunOf};
ghost use Rattle.run_messages.specs.Kinds.{send_label_kind, send_unit_kind};
ghost use Rattle.run_messages.specs.Waiting.{AwaitsOther, Awaits, AwaitsRecv};

use crate::meeting::RECEIVES;
use crate::messages::turn_on;
use notation::kinds::{SEND_LABEL, SEND_UNIT};
use notation::reading::TermNode;
use notation::token::{has_name, name_length};
use notation::words::wide;
use run_words::far::far_end_near;
use run_words::processes::{doing, held_count, held_end};
use run_words::records::{End, Far};

// The channel of the process at a place whose name is the one at `at`.
fn end_named(text: &[u8], run: &[u32], i: usize, at: usize) -> Option<End>
    requires run_words_in_bounds { (run_words ≤ length run.now) × (i < process_places) }
    requires i_bound { held_count run.now i ≤ held_limit }
    ensures { Sees text.now (value_of run.now i).held at result }
{
    let n = held_count(run, i);
    let m = name_length(text, at);
    for k in 0..n {
        let e = held_end(run, i, k);
        let there = wide(e.name);
        if has_name(text, at, m, there) {
            return Some(e);
        }
    }
    None
}

// Whether a process is at the far end of the channel c of the process at a place, and its turn there is not of a kind from `first` to `last`.
fn awaits(
    text: &[u8],
    scratch: &[u32],
    run: &[u32],
    place: usize,
    c: usize,
    first: usize,
    last: usize,
) -> bool
    requires run_of { RunOf text.now scratch.now run.now }
    requires well_formed { WellFormed (program_in text.now scratch.now) (config_in text.now scratch.now run.now) }
    requires place_in_bounds { place < length (raw_in run.now).processes }
    requires send_unit_kind_le_first { send_unit_kind ≤ first }
    ensures { AwaitsOther text.now scratch.now run.now place c first last result }
{
    let Some(e) = end_named(text, run, place, c) else {
        return false;
    };
    let Far::Process(j, k) = far_end_near(run, place, e.channel, e.side) else {
        return false;
    };
    let y = held_end(run, j, k);
    let d = doing(run, j);
    let x = y.name as usize;
    match turn_on(text, scratch, d.kind, d.pointer, x) {
        Some(t) => t.kind < first || last < t.kind,
        None => true,
    }
}

// Whether a recv on the channel c of the process at a place waits for the send of another.
pub fn awaits_send(text: &[u8], scratch: &[u32], run: &[u32], place: usize, c: usize) -> bool
    requires run_of { RunOf text.now scratch.now run.now }
    requires well_formed { WellFormed (program_in text.now scratch.now) (config_in text.now scratch.now run.now) }
    requires place_in_bounds { place < length (raw_in run.now).processes }
    ensures { Awaits text.now scratch.now run.now place c result }
{
    awaits(text, scratch, run, place, c, SEND_UNIT, SEND_LABEL)
}

// Whether the send n of the process at a place waits for the recv of another.
pub fn awaits_recv(text: &[u8], scratch: &[u32], run: &[u32], place: usize, n: TermNode) -> bool
    requires run_of { RunOf text.now scratch.now run.now }
    requires well_formed { WellFormed (program_in text.now scratch.now) (config_in text.now scratch.now run.now) }
    requires place_in_bounds { place < length (raw_in run.now).processes }
    requires send_unit_kind_le_kind { (send_unit_kind ≤ n.kind) × (n.kind ≤ send_label_kind) }
    ensures { AwaitsRecv text.now scratch.now run.now place n result }
{
    let kind = n.kind + RECEIVES;
    awaits(text, scratch, run, place, n.first, kind, kind)
}
