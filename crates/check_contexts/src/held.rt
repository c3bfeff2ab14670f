// What a process holds, by name.
ghost use Rattle.notation.specs.Limits.{channel_places, held_limit, text_limit, type_term_limit};
ghost use Rattle.std.specs.Prelude.{◌≡◌, ◌*◌, ◌/◌, ◌<◌, ◌≤◌, get_or};
ghost use Rattle.check_contexts.specs.Held.{held_by, is_named, Sees, Drops, Retypes, RetypesAt, Brings};
ghost use Rattle.run_words.specs.Operations.{first};
ghost use Rattle.run_words.specs.Raw.{BoundedEnd, end_words, side_radix};
ghost use Rattle.run_words.specs.Lists.{All};
ghost use Rattle.run_words.specs.Values.{held_in};

use notation::token::{has_name, name_length};
use notation::words::wide;
use run_words::held::{end_at, replaced, with, without};
use run_words::records::{END_WORDS, End, HELD_WORDS, Held, SIDE_RADIX};

// The offset of the name of the end k.
pub(crate) fn name_at(ends: &[u32; HELD_WORDS], k: usize) -> usize
    requires { k < held_limit }
    ensures { result ≡ get_or ends.now (end_words * k) 0 / side_radix }
{
    wide(ends[END_WORDS * k] / SIDE_RADIX)
}

// The first of n ends whose name is the one at `at`.
fn position_in(text: &[u8], ends: &[u32; HELD_WORDS], n: usize, at: usize) -> Option<usize>
    requires { n ≤ held_limit }
    ensures { result ≡ first (is_named text.now at) (held_in (held_by n ends.now)) }
{
    let bytes = name_length(text, at);
    for k in 0..n {
        if has_name(text, at, bytes, name_at(ends, k)) {
            return Some(k);
        }
    }
    None
}

// The first position that has the name at `at`.
pub fn position_named(text: &[u8], h: Held, at: usize) -> Option<usize>
    requires { h.count ≤ held_limit }
    ensures { result ≡ first (is_named text.now at) (held_in h) }
{
    let words = h.words;
    position_in(text, &words, h.count, at)
}

// The channel whose name is the one at `at`.
pub fn find_end(text: &[u8], h: Held, at: usize) -> Option<End>
    requires { h.count ≤ held_limit }
    ensures { Sees text.now h at result }
{
    let k = position_named(text, h, at)?;
    Some(end_at(h, k))
}

// Without that channel.
pub fn drop_end(text: &[u8], h: Held, at: usize) -> Held
    requires { h.count ≤ held_limit }
    ensures { Drops text.now h at result }
{
    let Some(k) = position_named(text, h, at) else {
        return h;
    };
    without(h, k)
}

// With another type for the channel at a position.
pub fn retype_at(h: Held, k: usize, node: u32) -> Held
    requires count_le_held_limit { (h.count ≤ held_limit) × (k < h.count) × (node < type_term_limit) }
    requires all { All BoundedEnd (held_in h) }
    ensures { RetypesAt h k node result }
{
    let e = end_at(h, k);
    replaced(h, k, End { node, ..e })
}

// With another type for the channel whose name is the one at `at`.
pub fn retype_end(text: &[u8], h: Held, at: usize, node: u32) -> Held
    requires count_le_held_limit { (h.count ≤ held_limit) × (node < type_term_limit) }
    requires all { All BoundedEnd (held_in h) }
    ensures { Retypes text.now h at node result }
{
    let Some(k) = position_named(text, h, at) else {
        return h;
    };
    retype_at(h, k, node)
}

// With one channel more: its name is the one at `at`.
pub fn bring_end(h: Held, at: u32, side: u32, node: u32, channel: u32) -> Held
    requires { (h.count < held_limit) × (at < text_limit) × (side < side_radix) × (node < type_term_limit) × (channel < channel_places) }
    ensures { Brings h at side node channel result }
{
    with(
        h,
        End {
            name: at,
            side,
            node,
            channel,
        },
    )
}
