// The processes of a run, by place.
ghost use Rattle.std.specs.Prelude.{◌≡◌, ℕ, ◌+◌, ◌*◌, ◌≤◌, ◌<◌, length, set};
ghost use Rattle.std.proofs.Math.Option.{some};
ghost use Rattle.std.proofs.Math.ListN.{get_elem?};
ghost use Rattle.notation.specs.Limits.{run_words, held_limit, process_places, channel_places};
ghost use Rattle.run_words.specs.Raw.{raw_in, process_of, BoundedProcess, Bounded, held_count, place_words, pointer_limit, process_row, side_radix};
ghost use Rattle.run_words.specs.Values.{end_in, process_in, value_of, Changed, Written};
ghost use Rattle.run_words.specs.Operations.{on_processes};

use crate::held::unpacked;
use crate::records::{
    COUNT, Doing, END_WORDS, ENDS, ENDS_AT, End, HELD_COUNT, HELD_WORDS, Held, KIND_RADIX, LINK,
    PLACE_WORDS, PLACES_AT, Process,
};
use crate::words::{copy_out, copy_words};
use notation::words::wide;

// How many there are.
pub fn count(run: &[u32]) -> usize
    requires { run_words ≤ length run.now }
    ensures { result ≡ length (raw_in run.now).processes }
{
    wide(run[COUNT])
}

// What the words of a process say, of which at most 16 channels are held.
pub(crate) fn get(run: &[u32], i: usize) -> Process
    requires run_words_in_bounds { (run_words ≤ length run.now) × (i < process_places) }
    requires i_bound { held_count run.now i ≤ held_limit }
    ensures i_value { process_of (process_row run.now i) ≡ process_in result }
    ensures count_le_held_limit { result.held.count ≤ held_limit }
{
    let at = PLACES_AT + PLACE_WORDS * i;
    let Doing { kind, pointer } = doing(run, i);
    Process {
        kind,
        pointer,
        link: run[at + LINK],
        held: Held {
            count: held_count(run, i),
            words: copy_out(run, at + ENDS),
        },
    }
}

// What the process at a place does and its term, read off its words.
pub fn doing(run: &[u32], i: usize) -> Doing
    requires { (run_words ≤ length run.now) × (i < process_places) }
    ensures { (result.kind ≡ (value_of run.now i).kind) × (result.pointer ≡ (value_of run.now i).pointer) }
{
    let word = run[PLACES_AT + PLACE_WORDS * i];
    Doing {
        kind: word % KIND_RADIX,
        pointer: word / KIND_RADIX,
    }
}

// How many ends the process at a place holds, read off its words: to load the process would copy them all.
pub fn held_count(run: &[u32], i: usize) -> usize
    requires { (run_words ≤ length run.now) × (i < process_places) }
    ensures { result ≡ held_count run.now i }
{
    wide(run[PLACES_AT + PLACE_WORDS * i + HELD_COUNT])
}

// One of these ends, by its position.
pub fn held_end(run: &[u32], i: usize, k: usize) -> End
    requires run_words_in_bounds { (run_words ≤ length run.now) × (i < process_places) × (k < held_limit) }
    requires k_bound { k < held_count run.now i }
    ensures k_value { get_elem? (process_of (process_row run.now i)).held k ≡ some (end_in result) }
    ensures side_lt_side_radix { (result.side < side_radix) × (result.channel < channel_places) }
{
    let at = ENDS_AT + PLACE_WORDS * i + END_WORDS * k;
    unpacked(run[at], run[at + 1])
}

// The process at a place.
pub fn load(run: &[u32], i: usize) -> Process
    requires run_words_in_bounds { run_words ≤ length run.now }
    requires bounded { Bounded (raw_in run.now) }
    requires i_in_bounds { i < length (raw_in run.now).processes }
    ensures i_value { get_elem? (raw_in run.now).processes i ≡ some (process_in result) }
    ensures bounded_process { BoundedProcess (length (raw_in run.now).processes) (process_in result) }
    ensures count_le_held_limit { result.held.count ≤ held_limit }
{
    get(run, i)
}

// The words of a process, from `at` on.
pub(crate) fn put(run: &mut [u32], at: usize, p: Process)
    requires place_words_in_bounds { at + place_words ≤ length run.old }
    requires kind_bound { (p.kind < 3) × (p.pointer < pointer_limit) × (p.held.count ≤ held_limit) }
    ensures { Written process_of place_words run.old run.new at (process_in p) }
{
    run[at] = p.pointer * KIND_RADIX + p.kind;
    run[at + LINK] = p.link;
    run[at + HELD_COUNT] = p.held.count as u32;
    // Lent as they are, they would keep the whole process in memory: it would be copied at each call.
    let words = p.held.words;
    copy_words(&words, 0, run, at + ENDS, HELD_WORDS);
}

// Another process at a place.
pub fn store(run: &mut [u32], i: usize, p: Process)
    requires run_words_in_bounds { run_words ≤ length run.old }
    requires bounded { Bounded (raw_in run.old) }
    requires i_in_bounds { i < length (raw_in run.old).processes }
    requires bounded_process { BoundedProcess (length (raw_in run.old).processes) (process_in p) }
    ensures changed { Changed run.old run.new (on_processes (λ l. set l i (process_in p)) (raw_in run.old)) }
    ensures still_bounded { Bounded (raw_in run.new) }
{
    put(run, PLACES_AT + PLACE_WORDS * i, p);
}
