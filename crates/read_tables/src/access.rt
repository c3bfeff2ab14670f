// The entries of the tables, by value.
ghost use Rattle.std.specs.Prelude.{◌≡◌, ◌+◌, ◌-◌, ◌<◌, ◌≤◌, length, get_or};
ghost use Rattle.notation.specs.Tables.{Area, branch_room};
ghost use Rattle.notation.specs.Limits.{exec_limit, process_term_limit, type_term_limit, process_limit, type_limit};
ghost use Rattle.read_tables.specs.Access.{Holds, NodeOf, TermOf, AlternativeOf, BranchOf, EntryOf, TypeOf, SignatureOf, ExecOf};
ghost use Rattle.read_tables.specs.Decode.{tally_in, pair_of};

use notation::reading::{ProcessEntry, TermNode, TypeNode};
use notation::tables::{
    ALTERNATIVES_AT, BRANCHES_AT, ENTRIES_AT, EXECS_AT, NODES_AT, OFFSET_RADIX, POINTER_RADIX,
    PROCESSES_AT, PROVIDED_RADIX, TERM_FIRST_UNIT, TERM_KIND_RADIX, TERMS_AT, TYPE_FIRST_RADIX,
    TYPE_KIND_RADIX, TYPE_SECOND_UNIT, TYPES_AT,
};
use notation::words::wide;

// How many words an entry of a type and of a process has.
pub(crate) const TYPE_WORDS: usize = 2;

pub(crate) const PROCESS_WORDS: usize = 4;

pub(crate) fn word(scratch: &[u32], i: usize) -> usize
    requires { i < length scratch.now }
    ensures value { result ≡ get_or scratch.now i 0 }
    ensures upper_bound { result < 4294967296 }
{
    wide(scratch[i])
}

// Two words side by side.
#[derive(Clone, Copy)]
struct Two {
    first: usize,
    second: usize,
}

// The words at i and after it.
fn two_words(scratch: &[u32], i: usize) -> Two
    requires { i + 1 < length scratch.now }
    ensures first_value { (result.first ≡ get_or scratch.now i 0) × (result.second ≡ get_or scratch.now (i + 1) 0) }
    ensures first_bound { (result.first < 4294967296) × (result.second < 4294967296) }
{
    let first = word(scratch, i);
    let second = word(scratch, i + 1);
    Two { first, second }
}

// The type node i.
pub fn type_node(scratch: &[u32], i: usize) -> TypeNode
    requires { Area scratch.now × (i < type_term_limit) }
    ensures { NodeOf scratch.now i result }
{
    let x = word(scratch, NODES_AT + i);
    TypeNode {
        kind: x % TYPE_KIND_RADIX,
        first: x / TYPE_KIND_RADIX % TYPE_FIRST_RADIX,
        second: x / TYPE_SECOND_UNIT,
    }
}

// The process node i.
pub fn term_node(scratch: &[u32], i: usize) -> TermNode
    requires { Area scratch.now × (i < process_term_limit) }
    ensures { TermOf scratch.now i result }
{
    let w = two_words(scratch, TERMS_AT + 2 * i);
    TermNode {
        kind: w.first % TERM_KIND_RADIX,
        at: w.first / TERM_KIND_RADIX % OFFSET_RADIX,
        first: w.first / TERM_FIRST_UNIT,
        second: w.second % POINTER_RADIX,
        third: w.second / POINTER_RADIX,
    }
}

// An entry of a table of pairs: where its name or label stands, and the number that belongs to it.
#[derive(Clone, Copy)]
pub struct Labelled {
    pub at: usize,
    pub number: usize,
}

// The pair in the word i.
pub fn pair(scratch: &[u32], i: usize) -> Labelled
    requires { i < length scratch.now }
    ensures { Holds result (pair_of (get_or scratch.now i 0)) }
{
    let x = word(scratch, i);
    Labelled {
        at: x % OFFSET_RADIX,
        number: x / OFFSET_RADIX,
    }
}

// The first of the alternatives before the place e.
pub fn alternative(scratch: &[u32], e: usize) -> Labelled
    requires { Area scratch.now × (1 ≤ e) × (e ≤ type_term_limit) }
    ensures { AlternativeOf scratch.now e result }
{
    pair(scratch, ALTERNATIVES_AT + (e - 1))
}

// The first of the branches before the place e.
pub fn branch(scratch: &[u32], e: usize) -> Labelled
    requires { Area scratch.now × (1 ≤ e) × (e ≤ branch_room) }
    ensures { BranchOf scratch.now e result }
{
    pair(scratch, BRANCHES_AT + (e - 1))
}

// The signature entry at the place i.
pub fn entry(scratch: &[u32], i: usize) -> Labelled
    requires { Area scratch.now × (i < type_term_limit) }
    ensures { EntryOf scratch.now i result }
{
    pair(scratch, ENTRIES_AT + i)
}

// How many types, processes and execs are declared, and how many type nodes and process nodes there are.
pub fn type_count(scratch: &[u32]) -> usize
    requires { Area scratch.now }
    ensures { result ≡ (tally_in scratch.now).types }
{
    word(scratch, 0)
}

pub fn process_count(scratch: &[u32]) -> usize
    requires { Area scratch.now }
    ensures { result ≡ (tally_in scratch.now).processes }
{
    word(scratch, 1)
}

pub fn exec_count(scratch: &[u32]) -> usize
    requires { Area scratch.now }
    ensures { result ≡ (tally_in scratch.now).execs }
{
    word(scratch, 2)
}

pub fn node_count(scratch: &[u32]) -> usize
    requires { Area scratch.now }
    ensures { result ≡ (tally_in scratch.now).nodes }
{
    word(scratch, 4)
}

pub fn term_count(scratch: &[u32]) -> usize
    requires { Area scratch.now }
    ensures { result ≡ (tally_in scratch.now).terms }
{
    word(scratch, 6)
}

// The type i: where its name stands, and the node of its definition.
pub fn declared_type(scratch: &[u32], i: usize) -> Labelled
    requires { Area scratch.now × (i < type_limit) }
    ensures { TypeOf scratch.now i result }
{
    let w = two_words(scratch, TYPES_AT + TYPE_WORDS * i);
    Labelled {
        at: w.first,
        number: w.second,
    }
}

// The process i.
pub fn declared_process(scratch: &[u32], i: usize) -> ProcessEntry
    requires { Area scratch.now × (i < process_limit) }
    ensures { SignatureOf scratch.now i result }
{
    let named = two_words(scratch, PROCESSES_AT + PROCESS_WORDS * i);
    let counted = two_words(scratch, PROCESSES_AT + PROCESS_WORDS * i + 2);
    ProcessEntry {
        at: named.first,
        first: named.second,
        provided: counted.first % PROVIDED_RADIX,
        used: counted.first / PROVIDED_RADIX,
        body: counted.second,
    }
}

// Where the name of the exec i stands.
pub fn exec_at(scratch: &[u32], i: usize) -> usize
    requires { Area scratch.now × (i < exec_limit) }
    ensures { ExecOf scratch.now i result }
{
    word(scratch, EXECS_AT + i)
}
