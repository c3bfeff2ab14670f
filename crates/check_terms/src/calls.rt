// `call p (a, ..) [b, ..]`: its two lists of names, and what the rule refuses, by its number.
ghost use Rattle.std.specs.Prelude.{◌≡◌, List, ℕ, ◌<◌, ◌≤◌};
ghost use Rattle.notation.specs.Token.{name_at};
ghost use Rattle.calculus.specs.Named.{lookup};
ghost use Rattle.calculus.specs.Checking.{entry_fits};
ghost use Rattle.calculus.specs.Typing.{names_of};
ghost use Rattle.check_contexts.specs.Held.{HeldIn};
ghost use Rattle.run_words.specs.Raw.{side_of};
ghost use Rattle.read_tables.specs.Decode.{arguments_at};
ghost use Rattle.read_tables.specs.Names.{CallAt};
ghost use Rattle.read_tables.specs.Program.{plain_in, program_in};
ghost use Rattle.read_tables.specs.Roots.{TypeIn};
ghost use Rattle.read_tables.specs.Whole.{Tables, EntriesIn};
ghost use Rattle.check_terms.specs.Next.{context_in};
ghost use Rattle.check_terms.specs.Endings.{answer_of, calls};
ghost use Rattle.check_terms.specs.Lists.{EveryName, AllHeld, Fit, Distinct, Apart, Without};
ghost use Rattle.check_terms.specs.Calls.{BothDistinct, BothFit, BothHeld, BothWithout, ListsChecked};

use check_contexts::held::{drop_end, find_end};
use check_contexts::names::{in_list, list_end};
use check_types::equality::same_type;
use notation::refusal::Refusal;
use notation::words::wide;
use read_tables::access::{declared_process, entry};
use read_tables::arguments::{Argument, list_start, next_argument};
use read_tables::search::find_process;
use run_words::records::{Held, PROVIDED, USED};

// Each name of the list that goes on from `from` passes a test, which is told where the name stands and where the list goes on after it.
fn every_name<F: Fn(usize, usize) -> bool>(text: &[u8], from: usize, test: F) -> bool
    requires { F.IsAlwaysCallable test }
    ensures { EveryName text.now from (F.post test) result }
{
    let mut i = from;
    while let Argument::Name(x, past) = next_argument(text, i) {
        if !test(x, past) {
            return false;
        }
        i = past;
    }
    true
}

// Each name of the list that goes on from `from` is held.
fn list_held(text: &[u8], h: Held, from: usize) -> bool
    requires { h.count ≤ 16 }
    ensures { AllHeld text.now h from result }
{
    every_name(text, from, |x, _| find_end(text, h, x).is_some())
}

// The channel with the name at `at` is of this side and type.
fn entry_fits(text: &[u8], scratch: &[u32], h: Held, at: usize, side: u32, node: usize) -> bool
    requires { Tables text.now scratch.now × HeldIn text.now scratch.now h × (side < 2) × TypeIn text.now scratch.now node }
    ensures { result ≡ entry_fits (program_in text.now scratch.now) (side_of side) (plain_in text.now scratch.now node) (lookup (name_at text.now at) (context_in text.now scratch.now h)) }
{
    let Some(e) = find_end(text, h, at) else {
        return false;
    };
    e.side == side && same_type(text, scratch, wide(e.node), node)
}

// The list fits n signature entries from the place `first` on, in number, side and type.
fn list_fits(
    text: &[u8],
    scratch: &[u32],
    h: Held,
    from: usize,
    side: u32,
    first: usize,
    n: usize,
) -> bool
    requires { Tables text.now scratch.now × HeldIn text.now scratch.now h × (side < 2) × EntriesIn text.now scratch.now first n }
    ensures { Fit text.now scratch.now h from side first n result }
{
    let mut i = from;
    let mut k = first;
    let mut m = n;
    while let Argument::Name(x, past) = next_argument(text, i) {
        if m == 0 {
            return false;
        }
        let t = entry(scratch, k);
        if !entry_fits(text, scratch, h, x, side, t.number) {
            return false;
        }
        i = past;
        k += 1;
        m -= 1;
    }
    m == 0
}

// No name of the list comes twice.
fn list_distinct(text: &[u8], from: usize) -> bool
    ensures { Distinct text.now from result }
{
    every_name(text, from, |x, past| !in_list(text, past, x))
}

// No name of the list is in the other one.
fn lists_apart(text: &[u8], from: usize, other: usize) -> bool
    ensures { Apart text.now from other result }
{
    every_name(text, from, |x, _| !in_list(text, other, x))
}

// What is held beside the names of the list.
fn drop_list(text: &[u8], h: Held, from: usize) -> Held
    requires { h.count ≤ 16 }
    ensures { Without text.now h from result }
{
    let mut i = from;
    let mut r = h;
    while let Argument::Name(x, past) = next_argument(text, i) {
        r = drop_end(text, r, x);
        i = past;
    }
    r
}

// No name of the two lists comes twice.
fn names_distinct(text: &[u8], a: usize, b: usize) -> bool
    ensures { BothDistinct text.now a b result }
{
    list_distinct(text, a) && lists_apart(text, a, b) && list_distinct(text, b)
}

// The two lists fit the signature of the process whose name is the one at `q`.
fn lists_fit(text: &[u8], scratch: &[u32], h: Held, q: usize, a: usize, b: usize) -> bool
    requires { Tables text.now scratch.now × HeldIn text.now scratch.now h }
    ensures { BothFit text.now scratch.now h q a b result }
{
    let Some(k) = find_process(text, scratch, q) else {
        return false;
    };
    let e = declared_process(scratch, k);
    list_fits(text, scratch, h, a, PROVIDED, e.first, e.provided)
        && list_fits(text, scratch, h, b, USED, e.first + e.provided, e.used)
}

// Each name of the two lists is held.
fn lists_held(text: &[u8], h: Held, a: usize, b: usize) -> bool
    requires { h.count ≤ 16 }
    ensures { BothHeld text.now h a b result }
{
    list_held(text, h, a) && list_held(text, h, b)
}

// How many channels are held beside the names of the two lists.
fn count_left(text: &[u8], h: Held, a: usize, b: usize) -> usize
    requires { h.count ≤ 16 }
    ensures { BothWithout text.now h a b result }
{
    let l = drop_list(text, h, a);
    let r = drop_list(text, l, b);
    r.count
}

// A call of the process named at `q`, whose lists go on from a and b.
fn check_lists(
    text: &[u8],
    scratch: &[u32],
    h: Held,
    q: usize,
    a: usize,
    b: usize,
) -> Result<(), u32>
    requires { Tables text.now scratch.now × HeldIn text.now scratch.now h }
    ensures { ListsChecked text.now scratch.now h q a b result }
{
    if !lists_held(text, h, a, b) {
        return Err(Refusal::NOT_HELD);
    }
    if !lists_fit(text, scratch, h, q, a, b) {
        return Err(Refusal::UNFIT);
    }
    if !names_distinct(text, a, b) {
        return Err(Refusal::UNFIT);
    }
    if count_left(text, h, a, b) != 0 {
        return Err(Refusal::LEFT_OVER);
    }
    Ok(())
}

// The same, by the round bracket of the call.
pub fn check_call(
    text: &[u8],
    scratch: &[u32],
    h: Held,
    q: usize,
    bracket: usize,
) -> Result<(), u32>
    requires tables { Tables text.now scratch.now × HeldIn text.now scratch.now h }
    requires call_at { CallAt text.now bracket (arguments_at text.now bracket).0 (arguments_at text.now bracket).1 }
    ensures { result ≡ answer_of (calls (program_in text.now scratch.now) (name_at text.now q) (names_of (arguments_at text.now bracket).0) (names_of (arguments_at text.now bracket).1) (context_in text.now scratch.now h)) }
{
    let a = list_start(text, bracket);
    let m = list_end(text, a);
    let b = list_start(text, m);
    check_lists(text, scratch, h, q, a, b)
}
