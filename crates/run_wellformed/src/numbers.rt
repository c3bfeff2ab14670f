// Whether the numbers of a run are of this text: its types are nodes of the tables, its processes terms of the tables or empty.
ghost use Rattle.std.specs.Prelude.{◌≤◌, ◌<◌, length};
ghost use Rattle.notation.specs.Limits.{run_words, held_limit};
ghost use Rattle.notation.specs.Tables.{Area};
ghost use Rattle.run_words.specs.Lists.{All};
ghost use Rattle.run_words.specs.Raw.{raw_in, Bounded};
ghost use Rattle.run_words.specs.Values.{held_in, process_in, Decided};
ghost use Rattle.run_wellformed.specs.OfText.{Pointer, EndOf, TermOf, ProcessOf, OutsideOf, OfText};

use notation::script::Script;
use notation::words::wide;
use read_tables::access::{node_count, term_count};
use run_words::held::end_at;
use run_words::outside::{outside_at, outside_count};
use run_words::processes::{count, load};
use run_words::records::{FOLDING, Held, Process};

// A pointer: to a term, or to the end of a process that is empty.
fn pointer_stands(scratch: &[u32], p: usize) -> bool
    requires { Area scratch.now }
    ensures { Decided result (Pointer scratch.now p) }
{
    p < term_count(scratch)
        || (Script::PROCESS_TERMS <= p && p <= Script::PROCESS_TERMS + Script::TEXT)
}

// A process's pointer, which does not matter where it folds up.
fn term_stands(scratch: &[u32], kind: u32, pointer: u32) -> bool
    requires { Area scratch.now }
    ensures { Decided result (TermOf scratch.now kind pointer) }
{
    kind == FOLDING || pointer_stands(scratch, wide(pointer))
}

// What a process holds.
fn ends_stand(scratch: &[u32], h: Held) -> bool
    requires area { Area scratch.now }
    requires count_le_held_limit { h.count ≤ held_limit }
    ensures { Decided result (All (EndOf scratch.now) (held_in h)) }
{
    let nodes = node_count(scratch);
    for k in 0..h.count {
        let e = end_at(h, k);
        if nodes <= wide(e.node) {
            return false;
        }
    }
    true
}

fn process_stands(scratch: &[u32], p: Process) -> bool
    requires area { Area scratch.now }
    requires count_le_held_limit { p.held.count ≤ held_limit }
    ensures { Decided result (ProcessOf scratch.now (process_in p)) }
{
    term_stands(scratch, p.kind, p.pointer) && ends_stand(scratch, p.held)
}

fn processes_stand(scratch: &[u32], run: &[u32]) -> bool
    requires area { Area scratch.now }
    requires run_words_in_bounds { run_words ≤ length run.now }
    requires bounded { Bounded (raw_in run.now) }
    ensures { Decided result (All (ProcessOf scratch.now) (raw_in run.now).processes) }
{
    let n = count(run);
    for i in 0..n {
        if !process_stands(scratch, load(run, i)) {
            return false;
        }
    }
    true
}

fn outside_stands(scratch: &[u32], run: &[u32]) -> bool
    requires area { Area scratch.now }
    requires run_words_in_bounds { run_words ≤ length run.now }
    requires bounded { Bounded (raw_in run.now) }
    ensures { Decided result (All (OutsideOf scratch.now) (raw_in run.now).outside) }
{
    let nodes = node_count(scratch);
    let n = outside_count(run);
    for k in 0..n {
        let o = outside_at(run, k);
        if nodes <= wide(o.node) {
            return false;
        }
    }
    true
}

// All of them.
pub(crate) fn numbers_stand(scratch: &[u32], run: &[u32]) -> bool
    requires area { Area scratch.now }
    requires run_words_in_bounds { run_words ≤ length run.now }
    requires bounded { Bounded (raw_in run.now) }
    ensures { Decided result (OfText scratch.now (raw_in run.now)) }
{
    processes_stand(scratch, run) && outside_stands(scratch, run)
}
