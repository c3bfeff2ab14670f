// Names that are held, and a call's names. Of n names that are held, `initials` spares the search for most others.
ghost use Rattle.std.specs.Prelude.{◌≡◌, ◌<◌, length, ◌&&◌};
ghost use Rattle.notation.specs.Token.{name_at};
ghost use Rattle.notation.specs.Limits.{held_limit};
ghost use Rattle.check_contexts.specs.Initials.{Initials};
ghost use Rattle.check_contexts.specs.Marks.{mark_of, held_name, is_name, Marked, Hidden, MarkPut};
ghost use Rattle.check_contexts.specs.Walks.{Ends, Among, MarkedList, MarkedCall};

use crate::held::name_at;
use crate::initials::{INITIALS, may_be_held};
use crate::marks::{Marks, is_marked};
use notation::token::{has_name, name_length};
use read_tables::arguments::{Argument, list_start, next_argument};
use run_words::records::HELD_WORDS;

// The name at `at` is in the list that goes on from `from`.
pub fn in_list(text: &[u8], from: usize, at: usize) -> bool
    ensures { Among text.now from (name_at text.now at) result }
{
    let bytes = name_length(text, at);
    let mut i = from;
    while let Argument::Name(there, past) = next_argument(text, i) {
        if has_name(text, at, bytes, there) {
            return true;
        }
        i = past;
    }
    false
}

// Past the list that goes on from `from`.
pub fn list_end(text: &[u8], from: usize) -> usize
    ensures { Ends text.now from result }
{
    let mut i = from;
    loop {
        match next_argument(text, i) {
            Argument::Name(_, past) => i = past,
            Argument::End(past) => return past,
        }
    }
}

// The name of the end k is sought, and it is the name at `at`, which has so many bytes.
fn meets(
    text: &[u8],
    ends: &[u32; HELD_WORDS],
    at: usize,
    bytes: usize,
    sought: Marks,
    k: usize,
) -> bool
    requires { (k < held_limit) × (bytes ≡ length (name_at text.now at)) }
    ensures { result ≡ mark_of sought k && is_name text.now at (held_name text.now ends.now k) }
{
    is_marked(sought, k) && has_name(text, at, bytes, name_at(ends, k))
}

// Of the first n names, those that are sought and are the name at `at` get the mark `mark`.
fn put_mark(
    text: &[u8],
    ends: &[u32; HELD_WORDS],
    initials: &[bool; INITIALS],
    n: usize,
    at: usize,
    sought: Marks,
    m: Marks,
    mark: bool,
) -> Marks
    requires { Initials text.now ends.now n initials.now }
    ensures { MarkPut text.now ends.now n sought at mark m result }
{
    if !may_be_held(text, initials, at) {
        return m;
    }
    let bytes = name_length(text, at);
    let mut r = m;
    for k in 0..n {
        if meets(text, ends, at, bytes, sought, k) {
            r.set[k] = mark;
        }
    }
    r
}

// Marks, of the first n names, those that are sought and are the name at `at`.
pub(crate) fn mark_name(
    text: &[u8],
    ends: &[u32; HELD_WORDS],
    initials: &[bool; INITIALS],
    n: usize,
    at: usize,
    sought: Marks,
    m: Marks,
) -> Marks
    requires { Initials text.now ends.now n initials.now }
    ensures { Marked text.now ends.now n sought (is_name text.now at) m result }
{
    put_mark(text, ends, initials, n, at, sought, m, true)
}

// Of the first n names, the name at `at` is sought no more.
pub(crate) fn hide_name(
    text: &[u8],
    ends: &[u32; HELD_WORDS],
    initials: &[bool; INITIALS],
    n: usize,
    at: usize,
    sought: Marks,
) -> Marks
    requires { Initials text.now ends.now n initials.now }
    ensures { Hidden text.now ends.now n (is_name text.now at) sought result }
{
    put_mark(text, ends, initials, n, at, sought, sought, false)
}

// Marks after a list of names, and where the list ends.
#[derive(Clone, Copy)]
pub struct ListMarks {
    pub marks: Marks,
    pub past: usize,
}

// Marks, of the first n names, those that are sought and stand in the list that goes on from `from`.
fn mark_list(
    text: &[u8],
    ends: &[u32; HELD_WORDS],
    initials: &[bool; INITIALS],
    n: usize,
    from: usize,
    sought: Marks,
    m: Marks,
) -> ListMarks
    requires { Initials text.now ends.now n initials.now }
    ensures { MarkedList text.now ends.now n from sought m result }
{
    let mut i = from;
    let mut marks = m;
    loop {
        match next_argument(text, i) {
            Argument::Name(there, past) => {
                marks = mark_name(text, ends, initials, n, there, sought, marks);
                i = past;
            }
            Argument::End(past) => return ListMarks { marks, past },
        }
    }
}

// The same of both lists of the call whose round bracket stands at `bracket`.
pub(crate) fn mark_call(
    text: &[u8],
    ends: &[u32; HELD_WORDS],
    initials: &[bool; INITIALS],
    n: usize,
    bracket: usize,
    sought: Marks,
    m: Marks,
) -> Marks
    requires { Initials text.now ends.now n initials.now }
    ensures { MarkedCall text.now ends.now n bracket sought m result }
{
    let provided = list_start(text, bracket);
    let first = mark_list(text, ends, initials, n, provided, sought, m);
    let used = list_start(text, first.past);
    let second = mark_list(text, ends, initials, n, used, sought, first.marks);
    second.marks
}
