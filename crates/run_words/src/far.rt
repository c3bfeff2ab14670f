// Who holds an end, and the far end of one.
ghost use Rattle.std.specs.Prelude.{◌≡◌, ℕ, ◌+◌, ◌-◌, ◌*◌, ◌≤◌, ◌<◌, length};
ghost use Rattle.notation.specs.Limits.{run_words, held_limit, process_places};
ghost use Rattle.run_words.specs.Raw.{raw_in, side_of, process_of, Bounded, held_count, process_row, side_radix};
ghost use Rattle.run_words.specs.Near.{held_around, HeldOnce};
ghost use Rattle.run_words.specs.Operations.{held_at, holder_of, far_end, was_given_up};

use crate::outside::find_outside;
use crate::processes::{count, held_count, held_end};
use crate::records::{Far, USED};

// The first position at which the process at a place holds an end.
fn place_holds(run: &[u32], i: usize, channel: u32, side: u32) -> Option<usize>
    requires run_words_in_bounds { (run_words ≤ length run.now) × (i < process_places) × (side < side_radix) }
    requires i_bound { held_count run.now i ≤ held_limit }
    ensures { result ≡ held_at channel (side_of side) (process_of (process_row run.now i)).held }
{
    for k in 0..held_count(run, i) {
        let e = held_end(run, i, k);
        if channel == e.channel && side == e.side {
            return Some(k);
        }
    }
    None
}

// The first process that holds an end: its place, and the end's position in what it holds.
fn holder(run: &[u32], channel: u32, side: u32) -> Option<(usize, usize)>
    requires run_words_in_bounds { run_words ≤ length run.now }
    requires bounded { Bounded (raw_in run.now) }
    requires side_lt_side_radix { side < side_radix }
    ensures { result ≡ holder_of channel (side_of side) (raw_in run.now).processes }
{
    for i in 0..count(run) {
        if let Some(k) = place_holds(run, i, channel, side) {
            return Some((i, k));
        }
    }
    None
}

// The process at a place, if there is one, as the holder of an end.
fn holder_at(run: &[u32], i: usize, channel: u32, side: u32) -> Option<(usize, usize)>
    requires run_words_in_bounds { run_words ≤ length run.now }
    requires bounded { Bounded (raw_in run.now) }
    requires side_lt_side_radix { side < side_radix }
    ensures { result ≡ held_around channel (side_of side) (raw_in run.now).processes i }
{
    if count(run) <= i {
        return None;
    }
    let k = place_holds(run, i, channel, side)?;
    Some((i, k))
}

// The process that holds an end that no two hold, sought outwards from a place: the ends of a channel are mostly close.
fn holder_near(run: &[u32], place: usize, channel: u32, side: u32) -> Option<(usize, usize)>
    requires run_words_in_bounds { run_words ≤ length run.now }
    requires bounded { Bounded (raw_in run.now) }
    requires side_lt_side_radix { side < side_radix }
    requires place_in_bounds { (place < length (raw_in run.now).processes) × HeldOnce (raw_in run.now).processes }
    ensures { result ≡ holder_of channel (side_of side) (raw_in run.now).processes }
{
    for d in 0..count(run) {
        let up = holder_at(run, place + 1 + d, channel, side);
        if up.is_some() {
            return up;
        }
        let down = holder_at(run, place.saturating_sub(d), channel, side);
        if down.is_some() {
            return down;
        }
    }
    None
}

// The far end of an end, by who holds the other end of the channel.
fn far_by(run: &[u32], h: Option<(usize, usize)>, channel: u32, side: u32) -> Far
    requires run_words_in_bounds { run_words ≤ length run.now }
    requires bounded { Bounded (raw_in run.now) }
    requires side_lt_side_radix { side < side_radix }
    requires h_value { h ≡ holder_of channel (side_of (1 - side)) (raw_in run.now).processes }
    ensures { result ≡ far_end (raw_in run.now) channel (side_of side) }
{
    if let Some((i, k)) = h {
        return Far::Process(i, k);
    }
    if side == USED {
        return Far::GivenUp;
    }
    match find_outside(run, channel) {
        Some(k) => Far::Outside(k),
        None => Far::GivenUp,
    }
}

// The far end of the end of a channel at a side.
pub fn far_end(run: &[u32], channel: u32, side: u32) -> Far
    requires run_words_in_bounds { run_words ≤ length run.now }
    requires bounded { Bounded (raw_in run.now) }
    requires side_lt_side_radix { side < side_radix }
    ensures { result ≡ far_end (raw_in run.now) channel (side_of side) }
{
    let h = holder(run, channel, USED - side);
    far_by(run, h, channel, side)
}

// The same where no end is held twice: sought outwards from a place.
pub fn far_end_near(run: &[u32], place: usize, channel: u32, side: u32) -> Far
    requires run_words_in_bounds { run_words ≤ length run.now }
    requires bounded { Bounded (raw_in run.now) }
    requires side_lt_side_radix { side < side_radix }
    requires place_in_bounds { (place < length (raw_in run.now).processes) × HeldOnce (raw_in run.now).processes }
    ensures { result ≡ far_end (raw_in run.now) channel (side_of side) }
{
    let h = holder_near(run, place, channel, USED - side);
    far_by(run, h, channel, side)
}

// Whether a far end was given up.
pub fn is_given_up(f: Far) -> bool
    ensures { result ≡ was_given_up f }
{
    matches!(f, Far::GivenUp)
}
