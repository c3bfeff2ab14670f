// The outside's channels, in rising number, and how many numbers were given.
ghost use Rattle.std.specs.Prelude.{◌≡◌, ℕ, ◌+◌, ◌*◌, ◌≤◌, ◌<◌, [], ◌∷◌, ◌++◌, length, set};
ghost use Rattle.std.proofs.Math.Option.{some};
ghost use Rattle.std.proofs.Math.ListN.{get_elem?};
ghost use Rattle.notation.specs.Limits.{run_words, channel_places, outside_numbers, type_term_limit};
ghost use Rattle.run_words.specs.Raw.{raw_in, outside_of, RawOutside, BoundedOutside, Bounded, outside_row, outside_words, outsides_at};
ghost use Rattle.run_words.specs.Values.{outside_in, Changed, Written};
ghost use Rattle.run_words.specs.Operations.{on_outside, with_given, outside_at, let_go, changed_outside, retyped, rerouted, changed_by};

use crate::records::{
    CHANNEL_RADIX, Change, GIVEN, OUTSIDE_COUNT, OUTSIDE_WORDS, OUTSIDES_AT, Outside,
};
use notation::words::wide;

// How many there are.
pub fn outside_count(run: &[u32]) -> usize
    requires { run_words ≤ length run.now }
    ensures { result ≡ length (raw_in run.now).outside }
{
    wide(run[OUTSIDE_COUNT])
}

// How many numbers were given.
pub fn given(run: &[u32]) -> u32
    requires { run_words ≤ length run.now }
    ensures { result ≡ (raw_in run.now).given }
{
    run[GIVEN]
}

// So many numbers were given.
pub fn set_given(run: &mut [u32], n: u32)
    requires run_words_in_bounds { run_words ≤ length run.old }
    requires bounded { Bounded (raw_in run.old) }
    requires n_le_outside_numbers { n ≤ outside_numbers }
    ensures changed { Changed run.old run.new (with_given (raw_in run.old) n) }
    ensures still_bounded { Bounded (raw_in run.new) }
{
    run[GIVEN] = n;
}

// What the words of a channel at a position say.
pub(crate) fn get_outside(run: &[u32], k: usize) -> Outside
    requires { (run_words ≤ length run.now) × (k < outside_numbers) }
    ensures result_value { outside_in result ≡ outside_of (outside_row run.now k) }
    ensures channel_lt_channel_places { result.channel < channel_places }
{
    let at = OUTSIDES_AT + OUTSIDE_WORDS * k;
    Outside {
        number: run[at],
        node: run[at + 1] / CHANNEL_RADIX,
        channel: run[at + 1] % CHANNEL_RADIX,
    }
}

// The channel at a position.
pub fn outside_at(run: &[u32], k: usize) -> Outside
    requires run_words_in_bounds { run_words ≤ length run.now }
    requires bounded { Bounded (raw_in run.now) }
    requires k_in_bounds { k < length (raw_in run.now).outside }
    ensures k_value { get_elem? (raw_in run.now).outside k ≡ some (outside_in result) }
    ensures bounded_outside { BoundedOutside (outside_in result) }
{
    get_outside(run, k)
}

// The first position with a channel.
pub(crate) fn find_outside(run: &[u32], channel: u32) -> Option<usize>
    requires run_words_in_bounds { run_words ≤ length run.now }
    requires bounded { Bounded (raw_in run.now) }
    ensures { result ≡ outside_at channel (raw_in run.now).outside }
{
    for k in 0..outside_count(run) {
        let o = outside_at(run, k);
        if channel == o.channel {
            return Some(k);
        }
    }
    None
}

// The words of a channel at a position.
fn put_outside(run: &mut [u32], k: usize, o: Outside)
    requires run_words_in_bounds { (run_words ≤ length run.old) × (k < outside_numbers) }
    requires bounded_outside { BoundedOutside (outside_in o) }
    ensures { Written outside_of outside_words run.old run.new (outsides_at + outside_words * k) (outside_in o) }
{
    let at = OUTSIDES_AT + OUTSIDE_WORDS * k;
    run[at] = o.number;
    run[at + 1] = o.node * CHANNEL_RADIX + o.channel;
}

// Another channel at a position.
fn set_outside(run: &mut [u32], k: usize, o: Outside)
    requires run_words_in_bounds { run_words ≤ length run.old }
    requires bounded { Bounded (raw_in run.old) }
    requires k_in_bounds { k < length (raw_in run.old).outside }
    requires bounded_outside { BoundedOutside (outside_in o) }
    ensures changed { Changed run.old run.new (on_outside (λ l. set l k (outside_in o)) (raw_in run.old)) }
    ensures still_bounded { Bounded (raw_in run.new) }
{
    put_outside(run, k, o);
}

// One channel more, the last.
pub fn append_outside(run: &mut [u32], o: Outside)
    requires run_words_in_bounds { run_words ≤ length run.old }
    requires bounded { Bounded (raw_in run.old) }
    requires run_len_bound { length (raw_in run.old).outside < outside_numbers }
    requires bounded_outside { BoundedOutside (outside_in o) }
    ensures changed { Changed run.old run.new (on_outside (λ l. l ++ (outside_in o ∷ [])) (raw_in run.old)) }
    ensures still_bounded { Bounded (raw_in run.new) }
{
    let n = outside_count(run);
    put_outside(run, n, o);
    run[OUTSIDE_COUNT] = (n + 1) as u32;
}

// The outside lets go of a channel: the others keep their order.
pub fn let_go(run: &mut [u32], channel: u32)
    requires run_words_in_bounds { run_words ≤ length run.old }
    requires bounded { Bounded (raw_in run.old) }
    ensures changed { Changed run.old run.new (on_outside (let_go channel) (raw_in run.old)) }
    ensures still_bounded { Bounded (raw_in run.new) }
{
    let mut j: usize = 0;
    for k in 0..outside_count(run) {
        let o = get_outside(run, k);
        if channel != o.channel {
            put_outside(run, j, o);
            j += 1;
        }
    }
    run[OUTSIDE_COUNT] = j as u32;
}

// With a change.
fn changed(o: Outside, change: Change) -> Outside
    ensures { outside_in result ≡ changed_by change (outside_in o) }
{
    match change {
        Change::Node(node) => Outside { node, ..o },
        Change::Channel(channel) => Outside { channel, ..o },
    }
}

// A change of the first of a channel.
fn change_outside(run: &mut [u32], channel: u32, change: Change)
    requires run_words_in_bounds { run_words ≤ length run.old }
    requires bounded { Bounded (raw_in run.old) }
    requires bounded_outside { (o : RawOutside) → BoundedOutside o → BoundedOutside (changed_by change o) }
    ensures changed { Changed run.old run.new (on_outside (changed_outside channel (changed_by change)) (raw_in run.old)) }
    ensures still_bounded { Bounded (raw_in run.new) }
{
    if let Some(k) = find_outside(run, channel) {
        let o = outside_at(run, k);
        set_outside(run, k, changed(o, change));
    }
}

// Another type for a channel.
pub fn retype_outside(run: &mut [u32], channel: u32, node: u32)
    requires run_words_in_bounds { run_words ≤ length run.old }
    requires bounded { Bounded (raw_in run.old) }
    requires node_lt_type_term_limit { node < type_term_limit }
    ensures changed { Changed run.old run.new (on_outside (changed_outside channel (retyped node)) (raw_in run.old)) }
    ensures still_bounded { Bounded (raw_in run.new) }
{
    change_outside(run, channel, Change::Node(node));
}

// Another channel in the place of one.
pub fn reroute_outside(run: &mut [u32], channel: u32, target: u32)
    requires run_words_in_bounds { run_words ≤ length run.old }
    requires bounded { Bounded (raw_in run.old) }
    requires target_lt_channel_places { target < channel_places }
    ensures changed { Changed run.old run.new (on_outside (changed_outside channel (rerouted target)) (raw_in run.old)) }
    ensures still_bounded { Bounded (raw_in run.new) }
{
    change_outside(run, channel, Change::Channel(target));
}
