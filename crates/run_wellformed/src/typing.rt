// Whether each process is typed: its names are distinct, and the check finds nothing at fault.
ghost use Rattle.std.specs.Prelude.{◌≡◌, true, ℕ, ◌≤◌, length};
ghost use Rattle.notation.specs.Limits.{run_words, held_limit};
ghost use Rattle.calculus.specs.Named.{every};
ghost use Rattle.theory_decision.specs.Decide.{typed?};
ghost use Rattle.read_tables.specs.Decode.{process_in};
ghost use Rattle.read_tables.specs.Everywhere.{Everywhere};
ghost use Rattle.read_tables.specs.Program.{program_in};
ghost use Rattle.read_tables.specs.Roots.{ProcessIn};
ghost use Rattle.read_tables.specs.Whole.{Tables};
ghost use Rattle.run_words.specs.Raw.{raw_in, BoundedProcess, Bounded};
ghost use Rattle.run_words.specs.Values as runs;
ghost use Rattle.check_contexts.specs.Held.{HeldIn};
ghost use Rattle.check_terms.specs.Next.{context_in};
ghost use Rattle.run_wellformed.specs.OfText.{ProcessOf, OfText};
ghost use Rattle.run_wellformed.specs.Typing.{Distinct, typed_in};

use crate::alike::typed_alike;
use check_contexts::held::find_end;
use check_processes::process::check_process;
use notation::words::wide;
use run_words::held::{end_at, without};
use run_words::processes::{count, load};
use run_words::records::{FOLDING, Held, NEW, Process};

// Whether no name comes twice: the first is not among those after it, which are tried likewise.
fn names_distinct(text: &[u8], h: Held) -> bool
    requires { h.count ≤ held_limit }
    ensures { Distinct text.now h result }
{
    let mut rest = h;
    while 0 < rest.count {
        let e = end_at(rest, 0);
        rest = without(rest, 0);
        if find_end(text, rest, wide(e.name)).is_some() {
            return false;
        }
    }
    true
}

// Whether a term is typed by what its process holds.
fn term_typed(text: &[u8], scratch: &[u32], h: Held, pointer: u32) -> bool
    requires { Tables text.now scratch.now × HeldIn text.now scratch.now h × ProcessIn text.now scratch.now pointer }
    ensures { result ≡ typed? (program_in text.now scratch.now) (context_in text.now scratch.now h) (process_in text.now scratch.now pointer) }
{
    names_distinct(text, h) && check_process(text, scratch, h, wide(pointer)).is_ok()
}

// Whether a process is typed, as one that folds up always is.
fn process_typed(text: &[u8], scratch: &[u32], p: Process) -> bool
    requires tables { Tables text.now scratch.now × Everywhere text.now scratch.now }
    requires process_of { ProcessOf scratch.now (runs.process_in p) × ((n : ℕ) × BoundedProcess n (runs.process_in p)) × (p.held.count ≤ held_limit) }
    ensures { result ≡ typed_in text.now scratch.now (runs.process_in p) }
{
    p.kind == FOLDING || term_typed(text, scratch, p.held, p.pointer)
}

// Whether the process p is typed, where q before it is: the check is spared where both are typed alike.
fn typed_after(text: &[u8], scratch: &[u32], q: Process, p: Process) -> bool
    requires tables { Tables text.now scratch.now × Everywhere text.now scratch.now }
    requires process_of { ProcessOf scratch.now (runs.process_in p) × ((n : ℕ) × BoundedProcess n (runs.process_in p)) × (p.held.count ≤ held_limit) }
    requires count_le_held_limit { (q.held.count ≤ held_limit) × (typed_in text.now scratch.now (runs.process_in q) ≡ true) }
    ensures { result ≡ typed_in text.now scratch.now (runs.process_in p) }
{
    typed_alike(q, p) || process_typed(text, scratch, p)
}

// Whether all are.
pub(crate) fn processes_typed(text: &[u8], scratch: &[u32], run: &[u32]) -> bool
    requires tables { Tables text.now scratch.now × Everywhere text.now scratch.now }
    requires run_words_in_bounds { run_words ≤ length run.now }
    requires bounded { Bounded (raw_in run.now) }
    requires of_text { OfText scratch.now (raw_in run.now) }
    ensures { result ≡ every (typed_in text.now scratch.now) (raw_in run.now).processes }
{
    let n = count(run);
    // One that folds up is typed: nothing is before the first.
    let mut last = Process {
        kind: FOLDING,
        ..NEW
    };
    for i in 0..n {
        let p = load(run, i);
        if !typed_after(text, scratch, last, p) {
            return false;
        }
        last = p;
    }
    true
}
