// Refusals 6 and 7: one walk over the declarations serves both.
ghost use Rattle.std.specs.Prelude.{◌≡◌};
ghost use Rattle.notation.specs.Tree.{named};
ghost use Rattle.notation.specs.Reader.{name_in};
ghost use Rattle.calculus.specs.Declarations.{unless_defined};
ghost use Rattle.read_tables.specs.Decode.{numbered};
ghost use Rattle.read_tables.specs.Program.{program_in};
ghost use Rattle.read_tables.specs.Roots.{TypeIn, AlternativesIn, alternatives_in};
ghost use Rattle.read_tables.specs.Whole.{Tables};
ghost use Rattle.check_declarations.specs.Faults.{label_faults, choice_faults, type_faults, faults_in};
ghost use Rattle.check_declarations.specs.Kinds.{is_infix};
ghost use Rattle.check_declarations.specs.Lowest.{Lowered};
ghost use Rattle.check_declarations.specs.Names.{name_of, Fits};

use crate::lowest::lowered;
use crate::names::{Names, repeated_names};
use notation::kinds;
use read_tables::access::{alternative, type_node};
use read_tables::search::{find_process, find_type};

// What a walk looks for: names that come twice, or names that are not defined.
#[derive(Clone, Copy)]
pub enum Pass {
    Repeated,
    Undefined,
}

// The name at `at` where no type has it.
fn undefined_type(text: &[u8], scratch: &[u32], at: usize, low: Option<usize>) -> Option<usize>
    requires { Tables text.now scratch.now }
    ensures { Lowered low (unless_defined (program_in text.now scratch.now).types (name_in text.now at)) result }
{
    let f = find_type(text, scratch, at);
    let Some(_) = f else {
        return lowered(low, at);
    };
    low
}

// The name at `at` where no process has it.
pub(crate) fn undefined_process(
    text: &[u8],
    scratch: &[u32],
    at: usize,
    low: Option<usize>,
) -> Option<usize>
    requires { Tables text.now scratch.now }
    ensures { Lowered low (unless_defined (program_in text.now scratch.now).processes (name_in text.now at)) result }
{
    let f = find_process(text, scratch, at);
    let Some(_) = f else {
        return lowered(low, at);
    };
    low
}

// A type that is a name.
fn name_faults(
    text: &[u8],
    scratch: &[u32],
    pass: Pass,
    at: usize,
    low: Option<usize>,
) -> Option<usize>
    requires { Tables text.now scratch.now }
    ensures { Lowered low (type_faults pass (program_in text.now scratch.now) (named (name_in text.now at))) result }
{
    match pass {
        Pass::Repeated => low,
        Pass::Undefined => undefined_type(text, scratch, at, low),
    }
}

// The names or labels of one list.
pub(crate) fn list_faults(
    text: &[u8],
    scratch: &[u32],
    pass: Pass,
    names: Names,
    count: usize,
    low: Option<usize>,
) -> Option<usize>
    requires { Tables text.now scratch.now × Fits names count }
    ensures { Lowered low (label_faults pass (numbered (name_of text.now scratch.now names) 0 count)) result }
{
    match pass {
        Pass::Repeated => repeated_names(text, scratch, names, count, low),
        Pass::Undefined => low,
    }
}

// A node of this kind is an infix type: it has a left and a right part.
fn is_infix(kind: usize) -> bool
    ensures { result ≡ is_infix kind }
{
    kinds::TENSOR <= kind && kind < kinds::PLUS
}

// A choice of `count` alternatives before the place e: its labels and its types.
#[cycle(choice_faults_type_faults)]
fn choice_faults(
    text: &[u8],
    scratch: &[u32],
    pass: Pass,
    e: usize,
    count: usize,
    low: Option<usize>,
) -> Option<usize>
    requires { Tables text.now scratch.now × AlternativesIn text.now scratch.now e count }
    ensures { Lowered low (choice_faults pass (program_in text.now scratch.now) (alternatives_in text.now scratch.now e count)) result }
{
    let mut l = list_faults(text, scratch, pass, Names::Alternatives(e), count, low);
    for k in 0..count {
        let a = alternative(scratch, e - k);
        l = type_faults(text, scratch, pass, a.number, l);
    }
    l
}

// The type i: the right part of an infix type is the next turn.
#[cycle(choice_faults_type_faults)]
pub(crate) fn type_faults(
    text: &[u8],
    scratch: &[u32],
    pass: Pass,
    i: usize,
    low: Option<usize>,
) -> Option<usize>
    requires { Tables text.now scratch.now × TypeIn text.now scratch.now i }
    ensures { Lowered low (faults_in text.now scratch.now pass i) result }
{
    let mut at = i;
    let mut n = type_node(scratch, at);
    let mut l = low;
    while is_infix(n.kind) {
        l = type_faults(text, scratch, pass, n.first, l);
        at = n.second;
        n = type_node(scratch, at);
    }
    if n.kind == kinds::UNIT {
        return l;
    }
    if n.kind == kinds::NAMED {
        return name_faults(text, scratch, pass, n.second, l);
    }
    choice_faults(text, scratch, pass, n.first, n.second, l)
}
