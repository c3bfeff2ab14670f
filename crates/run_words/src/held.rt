// What a process holds, by position, oldest first.
ghost use Rattle.notation.specs.Limits.{channel_places, held_limit};
ghost use Rattle.std.specs.Prelude.{◌≡◌, ℕ, ◌+◌, ◌-◌, ◌*◌, ◌≤◌, ◌<◌, [], ◌∷◌, ◌++◌, set};
ghost use Rattle.std.proofs.Math.Option.{some};
ghost use Rattle.std.proofs.Math.ListN.{get_elem?};
ghost use Rattle.run_words.specs.Lists.{remove_at};
ghost use Rattle.run_words.specs.Raw.{BoundedEnd, end_of, end_words, side_radix, end_by};
ghost use Rattle.run_words.specs.Values.{end_in, held_in, Written};

use crate::records::{CHANNEL_RADIX, END_WORDS, End, HELD_WORDS, Held, NOTHING, SIDE_RADIX};

// Nothing held.
pub fn no_ends() -> Held
    ensures result_value { held_in result ≡ [] }
    ensures count_value { result.count ≡ 0 }
{
    NOTHING
}

// The end of two words.
pub(crate) fn unpacked(a: u32, b: u32) -> End
    ensures result_value { end_in result ≡ end_by a b }
    ensures side_lt_side_radix { (result.side < side_radix) × (result.channel < channel_places) }
{
    End {
        name: a / SIDE_RADIX,
        side: a % SIDE_RADIX,
        node: b / CHANNEL_RADIX,
        channel: b % CHANNEL_RADIX,
    }
}

// The end at a position.
pub fn end_at(h: Held, k: usize) -> End
    requires { (h.count ≤ held_limit) × (k < h.count) }
    ensures k_value { get_elem? (held_in h) k ≡ some (end_in result) }
    ensures side_lt_side_radix { (result.side < side_radix) × (result.channel < channel_places) }
{
    unpacked(h.words[END_WORDS * k], h.words[END_WORDS * k + 1])
}

// The words of an end at a position.
fn put_end(mut words: [u32; HELD_WORDS], k: usize, e: End) -> [u32; HELD_WORDS]
    requires k_lt_held_limit { k < held_limit }
    requires bounded_end { BoundedEnd (end_in e) × (e.side < side_radix) }
    ensures { Written end_of end_words words result (end_words * k) (end_in e) }
{
    words[END_WORDS * k] = e.name * SIDE_RADIX + e.side;
    words[END_WORDS * k + 1] = e.node * CHANNEL_RADIX + e.channel;
    words
}

// With one end more, the youngest.
pub fn with(h: Held, e: End) -> Held
    requires count_lt_held_limit { h.count < held_limit }
    requires bounded_end { BoundedEnd (end_in e) × (e.side < side_radix) }
    ensures result_value { held_in result ≡ held_in h ++ (end_in e ∷ []) }
    ensures count_value { result.count ≡ h.count + 1 }
{
    Held {
        count: h.count + 1,
        words: put_end(h.words, h.count, e),
    }
}

// With another end at a position.
pub fn replaced(h: Held, k: usize, e: End) -> Held
    requires count_le_held_limit { (h.count ≤ held_limit) × (k < h.count) }
    requires bounded_end { BoundedEnd (end_in e) × (e.side < side_radix) }
    ensures result_value { held_in result ≡ set (held_in h) k (end_in e) }
    ensures count_value { result.count ≡ h.count }
{
    Held {
        words: put_end(h.words, k, e),
        ..h
    }
}

// Without the end at a position: those after it move down.
pub fn without(h: Held, k: usize) -> Held
    requires { (h.count ≤ held_limit) × (k < h.count) }
    ensures result_value { held_in result ≡ remove_at k (held_in h) }
    ensures count_value { result.count + 1 ≡ h.count }
{
    let mut words = h.words;
    words.copy_within(END_WORDS * (k + 1)..END_WORDS * h.count, END_WORDS * k);
    Held {
        count: h.count - 1,
        words,
    }
}
