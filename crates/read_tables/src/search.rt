// Declarations found by name.
ghost use Rattle.std.specs.Prelude.{◌≡◌, ◌+◌, ◌*◌, ◌<◌, ◌≤◌, length};
ghost use Rattle.notation.specs.Token.{name_at};
ghost use Rattle.read_tables.specs.Decode.{tally_in};
ghost use Rattle.read_tables.specs.Program.{program_in, named_type, named_process};
ghost use Rattle.read_tables.specs.Search.{first_named, named_from, Sought};
ghost use Rattle.read_tables.specs.Whole.{Tables};

use crate::access::{PROCESS_WORDS, TYPE_WORDS, process_count, type_count, word};
use notation::tables::{PROCESSES_AT, TYPES_AT};
use notation::token::{has_name, name_length};

// The first of n entries, of `size` words each from the word `table` on, whose name is the one that stands at `at`; an entry's first word says where its name stands.
fn find_named(
    text: &[u8],
    scratch: &[u32],
    at: usize,
    table: usize,
    size: usize,
    n: usize,
) -> Option<usize>
    requires { (0 < size) × (table + size * n ≤ length scratch.now) }
    ensures { result ≡ first_named (name_at text.now at) (named_from text.now scratch.now table size) 0 n }
{
    let bytes = name_length(text, at);
    for i in 0..n {
        if has_name(text, at, bytes, word(scratch, table + size * i)) {
            return Some(i);
        }
    }
    None
}

// The type whose name is the one that stands at `at`.
pub fn find_type(text: &[u8], scratch: &[u32], at: usize) -> Option<usize>
    requires { Tables text.now scratch.now }
    ensures { Sought (name_at text.now at) (program_in text.now scratch.now).types (named_type text.now scratch.now) (tally_in scratch.now).types result }
{
    find_named(text, scratch, at, TYPES_AT, TYPE_WORDS, type_count(scratch))
}

// The process whose name is the one that stands at `at`.
pub fn find_process(text: &[u8], scratch: &[u32], at: usize) -> Option<usize>
    requires { Tables text.now scratch.now }
    ensures { Sought (name_at text.now at) (program_in text.now scratch.now).processes (named_process text.now scratch.now) (tally_in scratch.now).processes result }
{
    find_named(
        text,
        scratch,
        at,
        PROCESSES_AT,
        PROCESS_WORDS,
        process_count(scratch),
    )
}
