// What each half of a process takes of what is held.
ghost use Rattle.notation.specs.Limits.{channel_places, held_limit, text_limit, type_term_limit};
ghost use Rattle.std.specs.Prelude.{◌≡◌, ◌≤◌, ◌<◌};
ghost use Rattle.run_words.specs.Lists.{All};
ghost use Rattle.run_words.specs.Raw.{BoundedEnd, side_of};
ghost use Rattle.run_words.specs.Values.{held_in};
ghost use Rattle.read_tables.specs.Whole.{Tables};
ghost use Rattle.check_contexts.specs.Halves.{HalfIn, half_side, fair, Takes, Picks, Divides, HasRoom, SpawnHalf};

use crate::held::bring_end;
use crate::initials::held_initials;
use crate::marks::{Marks, NONE, any_marked, is_marked};
use crate::mentions::mark_process;
use crate::names::hide_name;
use run_words::held::{end_at, no_ends, with};
use run_words::records::{Held, PROVIDED, USED};

// A half of a spawn, in which the name at the first offset is a new one, or a half of a try; and its pointer.
#[derive(Clone, Copy)]
pub enum Half {
    OfSpawn(usize, usize),
    OfTry(usize),
}

// The first half of a spawn provides the new channel, the second uses it.
pub fn side_of(first: bool) -> u32
    ensures result_value { side_of result ≡ half_side first }
    ensures upper_bound { result < 2 }
{
    if first { PROVIDED } else { USED }
}

// Which of the held channels that `of` marks the half takes; the walk is spared where none is marked.
pub fn half_takes(text: &[u8], scratch: &[u32], h: Held, half: Half, of: Marks) -> Marks
    requires { Tables text.now scratch.now × HalfIn text.now scratch.now half × (h.count ≤ held_limit) }
    ensures { Takes text.now scratch.now h half of result }
{
    let n = h.count;
    let ends = h.words;
    if !any_marked(of, n) {
        return NONE;
    }
    let initials = held_initials(text, &ends, n);
    match half {
        Half::OfSpawn(x, p) => {
            let sought = hide_name(text, &ends, &initials, n, x, of);
            mark_process(text, scratch, &ends, &initials, n, p, sought, NONE)
        }
        Half::OfTry(p) => mark_process(text, scratch, &ends, &initials, n, p, of, NONE),
    }
}

// What is held and marked, in its order; or, where that is not wanted, what is not marked.
pub fn keep(h: Held, m: Marks, want: bool) -> Held
    requires { (h.count ≤ held_limit) × All BoundedEnd (held_in h) }
    ensures { Picks h m want result }
{
    let mut r = no_ends();
    for k in 0..h.count {
        let e = end_at(h, k);
        if is_marked(m, k) == want {
            r = with(r, e);
        }
    }
    r
}

// A channel that is taken so by the two halves is taken as it may be.
fn is_fair(exactly: bool, first: bool, second: bool) -> bool
    ensures { result ≡ fair exactly first second }
{
    if first { !second } else { second || !exactly }
}

// None of the first n channels is taken by both halves, and, where it must be exactly one, none by neither.
pub fn divides(n: usize, first: Marks, second: Marks, exactly: bool) -> bool
    requires { n ≤ held_limit }
    ensures { Divides n first second exactly result }
{
    for k in 0..n {
        if !is_fair(exactly, is_marked(first, k), is_marked(second, k)) {
            return false;
        }
    }
    true
}

// What a half of a spawn holds: what is marked, for the first half, or what is left, for the second; and its end of the new channel.
pub fn spawn_half(h: Held, taken: Marks, name: u32, node: u32, first: bool, channel: u32) -> Held
    requires count_le_held_limit { (h.count ≤ held_limit) × All BoundedEnd (held_in h) × HasRoom h taken first }
    requires name_lt_text_limit { (name < text_limit) × (node < type_term_limit) × (channel < channel_places) }
    ensures { SpawnHalf h taken name node first channel result }
{
    let a = keep(h, taken, first);
    let side = side_of(first);
    bring_end(a, name, side, node, channel)
}
