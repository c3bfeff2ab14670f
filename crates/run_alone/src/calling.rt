// A call: the channels of its lists under the names of the signature.
ghost use Rattle.run_words.specs.Raw.{side_radix};
ghost use Rattle.notation.specs.Limits.{held_limit, text_limit, type_term_limit};
ghost use Rattle.std.specs.Prelude.{◌≡◌, ◌+◌, ◌≤◌, ◌<◌};
ghost use Rattle.read_tables.specs.Roots.{TypeIn};
ghost use Rattle.read_tables.specs.Whole.{EntriesIn, SignatureIn, Tables};
ghost use Rattle.check_contexts.specs.Held.{HeldIn};
ghost use Rattle.check_contexts.specs.Walks.{Walking, Whatever};
ghost use Rattle.run_alone.specs.Run.{RunOf, StandsAt, Carries};
ghost use Rattle.run_alone.specs.Calling.{EntersEnd, EntersList, EntersCall, CallIn, calling_by};

use crate::outcome::Outcome;
use calculus::answers::Seen;
use check_contexts::held::{bring_end, find_end};
use check_contexts::names::list_end;
use notation::reading::ProcessEntry;
use read_tables::access::{declared_process, entry};
use read_tables::arguments::{Argument, list_start, next_argument};
use read_tables::search::find_process;
use run_words::held::no_ends;
use run_words::processes::store;
use run_words::records::{Held, PROVIDED, Process, RUNNING, USED};

// With the end that h holds under the name at `a`, if it holds one: under the name at `at`, and with the type of a node.
fn enter_end(
    text: &[u8],
    scratch: &[u32],
    h: Held,
    r: Held,
    a: usize,
    at: u32,
    side: u32,
    node: u32,
) -> Held
    requires held_in { HeldIn text.now scratch.now h × HeldIn text.now scratch.now r × TypeIn text.now scratch.now node }
    requires count_lt_held_limit { (r.count < held_limit) × (at < text_limit) × (side < side_radix) × (node < type_term_limit) }
    ensures { EntersEnd text.now scratch.now h r a at side node result }
{
    let Some(d) = find_end(text, h, a) else {
        return r;
    };
    bring_end(r, at, side, node, d.channel)
}

// What is held after a list was entered, and where its walk stopped.
#[derive(Clone, Copy)]
struct Entered {
    held: Held,
    at: usize,
}

// With the ends that h holds under the names of the list from `from` on, under those of n signature entries.
fn enter_list(
    text: &[u8],
    scratch: &[u32],
    h: Held,
    r: Held,
    from: usize,
    side: u32,
    first: usize,
    n: usize,
) -> Entered
    requires tables { Tables text.now scratch.now × EntriesIn text.now scratch.now first n }
    requires held_in { HeldIn text.now scratch.now h × HeldIn text.now scratch.now r }
    requires n_bound { (r.count + n ≤ held_limit) × (side < side_radix) }
    ensures enters_list { EntersList text.now scratch.now h r from side first n result.held }
    ensures walking { Walking text.now from result.at Whatever }
{
    let mut q = r;
    let mut at = from;
    let mut i = first;
    let mut left = n;
    while left != 0 {
        let Argument::Name(there, past) = next_argument(text, at) else {
            return Entered { held: q, at };
        };
        let e = entry(scratch, i);
        q = enter_end(
            text,
            scratch,
            h,
            q,
            there,
            e.at as u32,
            side,
            e.number as u32,
        );
        at = past;
        i += 1;
        left -= 1;
    }
    Entered { held: q, at }
}

// The place past n entries; no sum that could wrap where there are none.
fn past_entries(first: usize, n: usize) -> usize
    requires { (n ≤ held_limit) × ((n ≡ 0 → ⊥) → first < type_term_limit) }
    ensures { result ≡ first + n }
{
    if n == 0 { first } else { first + n }
}

// The channels that h holds under the names of a call's lists, under those of the signature of d.
fn enter_call(text: &[u8], scratch: &[u32], h: Held, bracket: usize, d: ProcessEntry) -> Held
    requires tables { Tables text.now scratch.now × SignatureIn text.now scratch.now d }
    requires held_in { HeldIn text.now scratch.now h }
    requires used_bound { d.provided + d.used ≤ held_limit }
    ensures { EntersCall text.now scratch.now h bracket d result }
{
    let from = list_start(text, bracket);
    let none = no_ends();
    let first = enter_list(text, scratch, h, none, from, PROVIDED, d.first, d.provided);
    let middle = list_end(text, first.at);
    let used = list_start(text, middle);
    let second = past_entries(d.first, d.provided);
    let both = enter_list(text, scratch, h, first.held, used, USED, second, d.used);
    both.held
}

// Call: the process goes on with the body of the process named, and the channels of the lists.
pub fn call(
    text: &[u8],
    scratch: &[u32],
    run: &mut [u32],
    place: usize,
    p: Process,
    name: usize,
    bracket: usize,
) -> Outcome
    requires run_of { RunOf text.now scratch.now run.old }
    requires stands_at { StandsAt text.now scratch.now run.old place p }
    requires call_in { CallIn text.now scratch.now name bracket }
    ensures { Carries text.now scratch.now run.old run.new result (calling_by text.now scratch.now run.old place p name bracket) }
{
    let Some(k) = find_process(text, scratch, name) else {
        return Outcome::NotOpen;
    };
    let d = declared_process(scratch, k);
    let held = enter_call(text, scratch, p.held, bracket, d);
    // Set one by one: as a struct with `..p`, what is held would be copied twice more.
    let mut q = p;
    q.kind = RUNNING;
    q.pointer = d.body as u32;
    q.held = held;
    store(run, place, q);
    Outcome::Carried(Seen::Nothing)
}
