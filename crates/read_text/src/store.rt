// The words of the tables of processes and declarations.
ghost use Rattle.std.specs.Prelude.{◌≡◌, ◌<◌};
ghost use Rattle.notation.specs.Tables.{Area, term_kind_radix, term_node, put_term, put_entry, put_type, put_process, put_exec, more_entries, more_types, more_processes, more_execs, offset_radix};
ghost use Rattle.notation.specs.Limits.{exec_limit, process_limit, process_term_limit, text_limit, type_limit, type_term_limit};
ghost use Rattle.read_types.specs.Filling.{Put, FitsTerm, FitsEntry};

use notation::reading::{ProcessEntry, Tally, TermNode};
use notation::tables::{
    ENTRIES_AT, EXECS_AT, POINTER_RADIX, PROCESSES_AT, PROVIDED_RADIX, TERM_FIRST_UNIT,
    TERM_KIND_RADIX, TERMS_AT, TYPES_AT,
};
use read_types::store::{put_pair, put_word};

// A node of this kind, by the offsets of what it has in the text; what follows it, if anything does, is put later.
pub(crate) fn term_node(kind: usize, at: u16, first: u16, second: u16) -> TermNode
    requires { (kind < term_kind_radix) × (at < text_limit) × (first < text_limit) × (second < text_limit) }
    ensures value { result ≡ term_node kind at first second 0 }
    ensures fits_term { FitsTerm result }
{
    TermNode {
        kind,
        at: at as usize,
        first: first as usize,
        second: second as usize,
        third: 0,
    }
}

// The node of the process term i is n.
pub(crate) fn put_term(scratch: &mut [u32], i: usize, n: TermNode)
    requires area { Area scratch.old × (i < process_term_limit) }
    requires fits_term { FitsTerm n }
    ensures { scratch.new ≡ put_term scratch.old i n }
{
    let at = TERMS_AT + 2 * i;
    put_word(
        scratch,
        at,
        n.kind + TERM_KIND_RADIX * n.at + TERM_FIRST_UNIT * n.first,
    );
    put_word(scratch, at + 1, n.second + POINTER_RADIX * n.third);
}

// Appends a signature entry: the name at `at` with its type's node.
#[tactic(auto, unfolding(notation::specs::Tables::put_entry))]
pub(crate) fn put_entry(scratch: &mut [u32], k: &mut Tally, at: u16, node: usize)
    requires { Area scratch.old × (k.old.entries < type_term_limit) × (at < offset_radix) × (node < type_term_limit) }
    ensures { Put scratch.old (put_entry scratch.old k.old.entries at node) (more_entries k.old) k.new scratch.new }
{
    put_pair(scratch, ENTRIES_AT + k.entries, at, node);
    k.entries += 1;
}

// Appends a type: its name at `at` with its definition's node.
#[tactic(auto, unfolding(notation::specs::Tables::put_type))]
pub(crate) fn put_type(scratch: &mut [u32], k: &mut Tally, at: u16, node: usize)
    requires { Area scratch.old × (k.old.types < type_limit) × (at < offset_radix) × (node < type_term_limit) }
    ensures { Put scratch.old (put_type scratch.old k.old.types at node) (more_types k.old) k.new scratch.new }
{
    let i = TYPES_AT + 2 * k.types;
    put_word(scratch, i, at as usize);
    put_word(scratch, i + 1, node);
    k.types += 1;
}

// Appends a process.
#[tactic(auto, unfolding(notation::specs::Tables::put_process))]
pub(crate) fn put_process(scratch: &mut [u32], k: &mut Tally, p: ProcessEntry)
    requires area { Area scratch.old × (k.old.processes < process_limit) }
    requires fits_entry { FitsEntry p }
    ensures { Put scratch.old (put_process scratch.old k.old.processes p) (more_processes k.old) k.new scratch.new }
{
    let i = PROCESSES_AT + 4 * k.processes;
    put_word(scratch, i, p.at);
    put_word(scratch, i + 1, p.first);
    put_word(scratch, i + 2, p.provided + PROVIDED_RADIX * p.used);
    put_word(scratch, i + 3, p.body);
    k.processes += 1;
}

// Appends an exec: its process's name at `at`.
#[tactic(auto, unfolding(notation::specs::Tables::put_exec))]
pub(crate) fn put_exec(scratch: &mut [u32], k: &mut Tally, at: u16)
    requires { Area scratch.old × (k.old.execs < exec_limit) × (at < offset_radix) }
    ensures { Put scratch.old (put_exec scratch.old k.old.execs at) (more_execs k.old) k.new scratch.new }
{
    put_word(scratch, EXECS_AT + k.execs, at as usize);
    k.execs += 1;
}
