// Channel places: the lowest that is free.
ghost use Rattle.std.specs.Prelude.{◌≡◌, ℕ, ◌+◌, ◌*◌, ◌≤◌, ◌<◌, List, [], map, length};
ghost use Rattle.notation.specs.Limits.{run_words, held_limit, process_places};
ghost use Rattle.run_words.specs.Raw.{RawOutside, raw_in, process_of, Bounded, held_count, process_row};
ghost use Rattle.run_words.specs.Values.{Marked};
ghost use Rattle.run_words.specs.Operations.{held_channels, process_channels, channels_held, fresh_channel, found_in};

use crate::outside::{outside_at, outside_count};
use crate::processes::{count, held_count, held_end};
use notation::script::Script;
use notation::words::wide;

// Marks the channels of the outside.
fn mark_outside(marks: &mut [bool; Script::CHANNEL_PLACES], run: &[u32])
    requires run_words_in_bounds { run_words ≤ length run.now }
    requires bounded { Bounded (raw_in run.now) }
    ensures { Marked marks.old [] → Marked marks.new (map (λ (o : RawOutside). o.channel) (raw_in run.now).outside) }
{
    for k in (0..outside_count(run)).rev() {
        let o = outside_at(run, k);
        marks[wide(o.channel)] = true;
    }
}

// Marks the channels that the process at a place holds, read off its words.
fn mark_held(marks: &mut [bool; Script::CHANNEL_PLACES], run: &[u32], i: usize)
    requires run_words_in_bounds { (run_words ≤ length run.now) × (i < process_places) }
    requires i_bound { held_count run.now i ≤ held_limit }
    ensures { (l : List ℕ) → Marked marks.old l → Marked marks.new (held_channels (process_of (process_row run.now i)).held l) }
{
    for k in (0..held_count(run, i)).rev() {
        let e = held_end(run, i, k);
        marks[wide(e.channel)] = true;
    }
}

// Marks the channels that the processes hold.
fn mark_processes(marks: &mut [bool; Script::CHANNEL_PLACES], run: &[u32])
    requires run_words_in_bounds { run_words ≤ length run.now }
    requires bounded { Bounded (raw_in run.now) }
    ensures { (l : List ℕ) → Marked marks.old l → Marked marks.new (process_channels (raw_in run.now).processes l) }
{
    for i in (0..count(run)).rev() {
        mark_held(marks, run, i);
    }
}

// A mark for each channel of which an end is held.
fn marked(run: &[u32]) -> [bool; Script::CHANNEL_PLACES]
    requires run_words_in_bounds { run_words ≤ length run.now }
    requires bounded { Bounded (raw_in run.now) }
    ensures { Marked result (channels_held (raw_in run.now)) }
{
    let mut marks = [false; Script::CHANNEL_PLACES];
    mark_outside(&mut marks, run);
    mark_processes(&mut marks, run);
    marks
}

// The lowest channel of which no end is held.
pub fn fresh_channel(run: &[u32]) -> Option<usize>
    requires run_words_in_bounds { run_words ≤ length run.now }
    requires bounded { Bounded (raw_in run.now) }
    ensures { result ≡ found_in (fresh_channel (raw_in run.now)) }
{
    marked(run).iter().position(|taken| !*taken)
}
