// Whether the ends fit: no key twice, and one type for both ends of a channel. A word for each key tells the type of its end.
ghost use Rattle.std.specs.Prelude.{◌≡◌, ◌≤◌, ◌<◌, [], ◌∷◌, map, length};
ghost use Rattle.notation.specs.Limits.{run_words, channel_places, held_limit};
ghost use Rattle.theory_decision.specs.Lists.{pairwise};
ghost use Rattle.read_tables.specs.Decode.{tally_in};
ghost use Rattle.read_tables.specs.Everywhere.{Everywhere};
ghost use Rattle.read_tables.specs.Whole.{Tables};
ghost use Rattle.run_words.specs.Lists.{All};
ghost use Rattle.run_words.specs.Raw.{raw_in, side_of, Bounded, side_radix};
ghost use Rattle.run_words.specs.Values.{end_in, held_in};
ghost use Rattle.run_wellformed.specs.OfText.{Node, EndOf, OfText};
ghost use Rattle.run_wellformed.specs.Kept.{keys, place_of, Kept, far_same, Entered, outside_end, process_ends, raw_ends, beside_in};

use check_types::equality::same_type;
use notation::script::Script;
use notation::words::wide;
use run_words::held::end_at;
use run_words::outside::{outside_at, outside_count};
use run_words::processes::{count, load};
use run_words::records::{End, Held, USED};

// A key for each side of each channel place.
const SIDES: usize = 2;

const KEYS: usize = SIDES * Script::CHANNEL_PLACES;

// The place of a key's word.
fn place(channel: u32, side: u32) -> usize
    requires { (channel < channel_places) × (side < side_radix) }
    ensures value { result ≡ place_of channel (side_of side) }
    ensures upper_bound { result < keys }
{
    SIDES * wide(channel) + wide(side)
}

// Whether the far end, if one is kept, has the type of a node.
fn far_same(text: &[u8], scratch: &[u32], node: u32, kept: u32) -> bool
    requires tables { Tables text.now scratch.now × Everywhere text.now scratch.now }
    requires node { Node scratch.now node × (kept ≤ (tally_in scratch.now).nodes) }
    ensures { result ≡ far_same text.now scratch.now node kept }
{
    kept == 0 || same_type(text, scratch, wide(node), wide(kept) - 1)
}

// Keeps an end, if it fits those kept before.
fn enter(text: &[u8], scratch: &[u32], seen: &mut [u32; KEYS], e: End) -> bool
    requires tables { Tables text.now scratch.now × Everywhere text.now scratch.now }
    requires kept { Kept scratch.now seen.old }
    requires node { Node scratch.now e.node × (e.channel < channel_places) × (e.side < side_radix) }
    ensures entered { Entered text.now scratch.now seen.old seen.new (end_in e ∷ []) result }
    ensures still_kept { Kept scratch.now seen.new }
{
    let here = place(e.channel, e.side);
    if seen[here] != 0 {
        return false;
    }
    let there = place(e.channel, USED - e.side);
    let far = seen[there];
    if !far_same(text, scratch, e.node, far) {
        return false;
    }
    seen[here] = e.node + 1;
    true
}

// What a process holds.
fn enter_held(text: &[u8], scratch: &[u32], seen: &mut [u32; KEYS], h: Held) -> bool
    requires tables { Tables text.now scratch.now × Everywhere text.now scratch.now }
    requires kept { Kept scratch.now seen.old }
    requires count_le_held_limit { (h.count ≤ held_limit) × All (EndOf scratch.now) (held_in h) }
    ensures entered { Entered text.now scratch.now seen.old seen.new (held_in h) result }
    ensures still_kept { Kept scratch.now seen.new }
{
    for k in 0..h.count {
        if !enter(text, scratch, seen, end_at(h, k)) {
            return false;
        }
    }
    true
}

// What the processes hold.
fn enter_processes(text: &[u8], scratch: &[u32], seen: &mut [u32; KEYS], run: &[u32]) -> bool
    requires tables { Tables text.now scratch.now × Everywhere text.now scratch.now }
    requires kept { Kept scratch.now seen.old }
    requires run_words_in_bounds { run_words ≤ length run.now }
    requires bounded { Bounded (raw_in run.now) × OfText scratch.now (raw_in run.now) }
    ensures entered { Entered text.now scratch.now seen.old seen.new (process_ends (raw_in run.now).processes) result }
    ensures still_kept { Kept scratch.now seen.new }
{
    let n = count(run);
    for i in 0..n {
        let p = load(run, i);
        if !enter_held(text, scratch, seen, p.held) {
            return false;
        }
    }
    true
}

// What the outside uses.
fn enter_outside(text: &[u8], scratch: &[u32], seen: &mut [u32; KEYS], run: &[u32]) -> bool
    requires tables { Tables text.now scratch.now × Everywhere text.now scratch.now }
    requires kept { Kept scratch.now seen.old }
    requires run_words_in_bounds { run_words ≤ length run.now }
    requires bounded { Bounded (raw_in run.now) × OfText scratch.now (raw_in run.now) }
    ensures { Entered text.now scratch.now seen.old seen.new (map outside_end (raw_in run.now).outside) result }
{
    let n = outside_count(run);
    for k in 0..n {
        let o = outside_at(run, k);
        let e = End {
            name: 0,
            side: USED,
            node: o.node,
            channel: o.channel,
        };
        if !enter(text, scratch, seen, e) {
            return false;
        }
    }
    true
}

// All of them.
pub(crate) fn ends_fit(text: &[u8], scratch: &[u32], run: &[u32]) -> bool
    requires tables { Tables text.now scratch.now × Everywhere text.now scratch.now }
    requires run_words_in_bounds { run_words ≤ length run.now }
    requires bounded { Bounded (raw_in run.now) × OfText scratch.now (raw_in run.now) }
    ensures { pairwise (beside_in text.now scratch.now) [] (raw_ends (raw_in run.now)) ≡ result }
{
    let mut seen = [0u32; KEYS];
    enter_processes(text, scratch, &mut seen, run) && enter_outside(text, scratch, &mut seen, run)
}
