// Processes come and leave: the places after them move by one, and the links with them.
ghost use Rattle.std.specs.Prelude.{◌≡◌, suc, ◌+◌, ◌≤◌, ◌<◌, map, length};
ghost use Rattle.notation.specs.Limits.{run_words, process_places};
ghost use Rattle.run_words.specs.Raw.{raw_in, BoundedProcess, Bounded};
ghost use Rattle.run_words.specs.Values.{process_in, Changed};
ghost use Rattle.run_words.specs.Operations.{single, on_processes, moved, moved_word, relinked, inserted, removed};
ghost use Rattle.run_words.specs.Bounds.{Unlinked};

use crate::processes::{count, put};
use crate::records::{
    COUNT, GIVEN, HALTED, LINKS_AT, OUTSIDE_COUNT, PLACE_WORDS, PLACES_AT, Process, SECOND_PLACE_AT,
};
use crate::words::{move_down, move_up};
use notation::words::wide;

// A link's word once the places after `i` have moved.
pub fn moved_link(link: u32, i: usize, up: bool) -> u32
    requires { (link ≤ process_places) × (i < process_places) }
    ensures { result ≡ moved_word up i link }
{
    if i + 1 < wide(link) {
        if up { link + 1 } else { link - 1 }
    } else {
        link
    }
}

// Every link, once the places after `i` have moved.
fn relink(run: &mut [u32], i: usize, up: bool)
    requires run_words_in_bounds { (run_words ≤ length run.old) × (i < process_places) }
    requires bounded { Bounded (raw_in run.old) }
    ensures { Changed run.old run.new (on_processes (map (relinked (moved up i))) (raw_in run.old)) }
{
    for k in 0..count(run) {
        let at = LINKS_AT + PLACE_WORDS * k;
        run[at] = moved_link(run[at], i, up);
    }
}

// A run of one process, and nothing outside.
pub fn begin(run: &mut [u32], p: Process)
    requires run_words_in_bounds { run_words ≤ length run.old }
    requires bounded_process { BoundedProcess 1 (process_in p) }
    ensures changed { Changed run.old run.new (single (process_in p)) }
    ensures bounded { Bounded (raw_in run.new) }
{
    run[COUNT] = 1;
    run[GIVEN] = 0;
    run[OUTSIDE_COUNT] = 0;
    run[HALTED] = 0;
    put(run, PLACES_AT, p);
}

// A process comes to stand directly after the one at a place.
pub fn insert(run: &mut [u32], i: usize, p: Process)
    requires run_words_in_bounds { run_words ≤ length run.old }
    requires bounded { Bounded (raw_in run.old) }
    requires i_in_bounds { (i < length (raw_in run.old).processes) × (length (raw_in run.old).processes < process_places) }
    requires bounded_process { BoundedProcess (suc (length (raw_in run.old).processes)) (process_in p) }
    ensures changed { Changed run.old run.new (on_processes (inserted i (process_in p)) (raw_in run.old)) }
    ensures still_bounded { Bounded (raw_in run.new) }
{
    let n = count(run);
    relink(run, i, true);
    move_up(
        run,
        SECOND_PLACE_AT + PLACE_WORDS * i,
        PLACES_AT + PLACE_WORDS * n,
        PLACE_WORDS,
    );
    put(run, SECOND_PLACE_AT + PLACE_WORDS * i, p);
    run[COUNT] = (n + 1) as u32;
}

// The process at a place leaves; nobody's link is its place.
pub fn remove(run: &mut [u32], i: usize)
    requires run_words_in_bounds { run_words ≤ length run.old }
    requires bounded { Bounded (raw_in run.old) }
    requires i_in_bounds { i < length (raw_in run.old).processes }
    requires unlinked { Unlinked i (raw_in run.old).processes }
    ensures changed { Changed run.old run.new (on_processes (removed i) (raw_in run.old)) }
    ensures still_bounded { Bounded (raw_in run.new) }
{
    let n = count(run);
    relink(run, i, false);
    move_down(
        run,
        SECOND_PLACE_AT + PLACE_WORDS * i,
        PLACES_AT + PLACE_WORDS * n,
        PLACE_WORDS,
    );
    run[COUNT] = (n - 1) as u32;
}
