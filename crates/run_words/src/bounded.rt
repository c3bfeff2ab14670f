// Whether the words of a slice keep the bounds.
ghost use Rattle.std.specs.Prelude.{◌+◌, ◌*◌, ◌≤◌, ◌<◌, length};
ghost use Rattle.notation.specs.Limits.{run_words, held_limit, outside_numbers, process_places};
ghost use Rattle.run_words.specs.Lists.{All};
ghost use Rattle.run_words.specs.Raw.{raw_in, process_of, BoundedEnd, BoundedProcess, BoundedOutside, Bounded, process_row};
ghost use Rattle.run_words.specs.Values.{held_in, Decided};

use crate::held::end_at;
use crate::outside::{get_outside, outside_count};
use crate::processes::{count, get, held_count};
use crate::records::{COUNT, GIVEN, HALTED, Held, OUTSIDE_COUNT, POINTER_LIMIT, WAITING};
use notation::script::Script;

// The notation's limits, as words.
const TEXT: u32 = Script::TEXT as u32;

const TYPE_TERMS: u32 = Script::TYPE_TERMS as u32;

const PROCESS_PLACES: u32 = Script::PROCESS_PLACES as u32;

const OUTSIDE_NUMBERS: u32 = Script::OUTSIDE_NUMBERS as u32;

// What a process holds.
fn ends_bounded(h: Held) -> bool
    requires { h.count ≤ held_limit }
    ensures { Decided result (All BoundedEnd (held_in h)) }
{
    for k in 0..h.count {
        let e = end_at(h, k);
        if TEXT <= e.name || TYPE_TERMS <= e.node {
            return false;
        }
    }
    true
}

// A process, which is one of n.
fn process_bounded(run: &[u32], i: usize, n: u32) -> bool
    requires { (run_words ≤ length run.now) × (i < process_places) }
    ensures { Decided result (BoundedProcess n (process_of (process_row run.now i))) }
{
    if Script::HELD < held_count(run, i) {
        return false;
    }
    let p = get(run, i);
    p.kind <= WAITING && p.pointer < POINTER_LIMIT && p.link <= n && ends_bounded(p.held)
}

// The processes.
fn processes_bounded(run: &[u32]) -> bool
    requires run_words_in_bounds { run_words ≤ length run.now }
    requires run_len_bound { length (raw_in run.now).processes ≤ process_places }
    ensures { Decided result (All (BoundedProcess (length (raw_in run.now).processes)) (raw_in run.now).processes) }
{
    let n = count(run);
    for i in 0..n {
        if !process_bounded(run, i, n as u32) {
            return false;
        }
    }
    true
}

// The outside's channels.
fn outside_bounded(run: &[u32]) -> bool
    requires run_words_in_bounds { run_words ≤ length run.now }
    requires run_len_bound { length (raw_in run.now).outside ≤ outside_numbers }
    ensures { Decided result (All BoundedOutside (raw_in run.now).outside) }
{
    for k in 0..outside_count(run) {
        let o = get_outside(run, k);
        if OUTSIDE_NUMBERS <= o.number || TYPE_TERMS <= o.node {
            return false;
        }
    }
    true
}

// The whole configuration.
pub fn bounded(run: &[u32]) -> bool
    requires { run_words ≤ length run.now }
    ensures { Decided result (Bounded (raw_in run.now)) }
{
    if PROCESS_PLACES < run[COUNT]
        || OUTSIDE_NUMBERS < run[GIVEN]
        || OUTSIDE_NUMBERS < run[OUTSIDE_COUNT]
        || 1 < run[HALTED]
    {
        return false;
    }
    processes_bounded(run) && outside_bounded(run)
}
