// Which types reach @, -o or &, through names as well: a mark for each declared type.
ghost use Rattle.std.specs.Prelude.{◌≡◌, false, ◌<◌, ◌≤◌};
ghost use Rattle.notation.specs.Bytes.{same};
ghost use Rattle.notation.specs.Token.{name_at};
ghost use Rattle.notation.specs.Limits.{type_limit};
ghost use Rattle.notation.specs.Tree.{plains};
ghost use Rattle.calculus.specs.Declarations.{has_other, have_other};
ghost use Rattle.calculus.specs.Named.{any_of};
ghost use Rattle.read_tables.specs.Program.{plain_in};
ghost use Rattle.read_tables.specs.Roots.{TypeIn, AlternativesIn, alternatives_in};
ghost use Rattle.read_tables.specs.Whole.{Tables};
ghost use Rattle.check_declarations.specs.Reach.{any_below, differs, differs_at, marked_so, marked, Next, Reaches};

use notation::kinds;
use notation::script::Script;
use notation::token::names_equal;
use read_tables::access::{alternative, declared_type, type_count, type_node};

// The type i has this mark, which is set, and its name is the one at `at`.
fn marked_so(text: &[u8], scratch: &[u32], mark: bool, i: usize, at: usize) -> bool
    requires { Tables text.now scratch.now × (i < type_limit) }
    ensures { result ≡ marked_so text.now scratch.now mark (name_at text.now at) i }
{
    mark && names_equal(text, at, declared_type(scratch, i).at)
}

// A marked type has the name at `at`.
fn is_marked(text: &[u8], scratch: &[u32], marks: [bool; Script::TYPES], at: usize) -> bool
    requires { Tables text.now scratch.now }
    ensures { result ≡ any_of (same (name_at text.now at)) (marked text.now scratch.now marks) }
{
    let n = type_count(scratch);
    for i in 0..n {
        if marked_so(text, scratch, marks[i], i, at) {
            return true;
        }
    }
    false
}

// One of `count` alternatives before the place e has @, -o or &, or a marked name.
#[cycle(alternatives_other_has_other)]
fn alternatives_other(
    text: &[u8],
    scratch: &[u32],
    marks: [bool; Script::TYPES],
    e: usize,
    count: usize,
) -> bool
    requires { Tables text.now scratch.now × AlternativesIn text.now scratch.now e count }
    ensures { result ≡ have_other (marked text.now scratch.now marks) (plains (alternatives_in text.now scratch.now e count)) }
{
    for k in 0..count {
        let a = alternative(scratch, e - k);
        if has_other(text, scratch, marks, a.number) {
            return true;
        }
    }
    false
}

// The type i has @, -o or &, or a marked name: the right part of a * is the next turn.
#[cycle(alternatives_other_has_other)]
pub fn has_other(text: &[u8], scratch: &[u32], marks: [bool; Script::TYPES], i: usize) -> bool
    requires { Tables text.now scratch.now × TypeIn text.now scratch.now i }
    ensures { result ≡ has_other (marked text.now scratch.now marks) (plain_in text.now scratch.now i) }
{
    let mut at = i;
    let mut n = type_node(scratch, at);
    while n.kind == kinds::TENSOR {
        if has_other(text, scratch, marks, n.first) {
            return true;
        }
        at = n.second;
        n = type_node(scratch, at);
    }
    if n.kind == kinds::UNIT {
        return false;
    }
    if n.kind == kinds::NAMED {
        return is_marked(text, scratch, marks, n.second);
    }
    if n.kind == kinds::PLUS {
        return alternatives_other(text, scratch, marks, n.first, n.second);
    }
    true
}

// The marks after one round: of each type whose definition has @, -o or &, or a marked name.
fn next_marks(text: &[u8], scratch: &[u32], marks: [bool; Script::TYPES]) -> [bool; Script::TYPES]
    requires { Tables text.now scratch.now }
    ensures { Next text.now scratch.now marks result }
{
    let n = type_count(scratch);
    let mut next = marks;
    for i in 0..n {
        let t = declared_type(scratch, i);
        next[i] = has_other(text, scratch, marks, t.number);
    }
    next
}

// The marks of one of the first n types differ.
fn marks_differ(a: [bool; Script::TYPES], b: [bool; Script::TYPES], n: usize) -> bool
    requires { n ≤ type_limit }
    ensures { result ≡ any_below (differs_at a b) n }
{
    for i in 0..n {
        if a[i] != b[i] {
            return true;
        }
    }
    false
}

// The marks after as many rounds as there are types: a round that changes none is the last, as each later one would change none.
pub fn reach(text: &[u8], scratch: &[u32]) -> [bool; Script::TYPES]
    requires { Tables text.now scratch.now }
    ensures { Reaches text.now scratch.now result }
{
    let n = type_count(scratch);
    let mut marks = [false; Script::TYPES];
    for _ in 0..n {
        let next = next_marks(text, scratch, marks);
        if !marks_differ(marks, next, n) {
            return marks;
        }
        marks = next;
    }
    marks
}
