// Lists of names in the tables, and the names that come twice in one.
ghost use Rattle.std.specs.Prelude.{◌≡◌, [], ◌+◌, ◌<◌};
ghost use Rattle.calculus.specs.Declarations.{repeats};
ghost use Rattle.notation.specs.Tables.{Area};
ghost use Rattle.notation.specs.Limits.{text_limit};
ghost use Rattle.read_tables.specs.Decode.{numbered};
ghost use Rattle.check_declarations.specs.Lowest.{Lowered};
ghost use Rattle.check_declarations.specs.Names.{name_of, Fits, StandsAt, seen_below, repeat_at};

use crate::lowest::lowered;
use notation::token::names_equal;
use read_tables::access::{alternative, branch, declared_process, declared_type, entry};

// The names of all types, of all processes, of signature entries, of alternatives or of branches from a place on.
#[derive(Clone, Copy)]
pub enum Names {
    Types,
    Processes,
    Entries(usize),
    Alternatives(usize),
    Branches(usize),
}

// Where a name is reported, and where its first letter stands: a label has an apostrophe before it.
#[derive(Clone, Copy)]
pub struct Place {
    pub at: usize,
    pub letter: usize,
}

fn name(at: usize) -> Place
    ensures { (result.at ≡ at) × (result.letter ≡ at) }
{
    Place { at, letter: at }
}

fn label(at: usize) -> Place
    requires { at < text_limit }
    ensures { (result.at ≡ at) × (result.letter ≡ at + 1) }
{
    Place { at, letter: at + 1 }
}

// The name k of a list.
fn name_at(scratch: &[u32], names: Names, k: usize) -> Place
    requires { Area scratch.now × Fits names (k + 1) }
    ensures { StandsAt scratch.now names k result }
{
    match names {
        Names::Types => {
            let t = declared_type(scratch, k);
            name(t.at)
        }
        Names::Processes => {
            let p = declared_process(scratch, k);
            name(p.at)
        }
        Names::Entries(i) => {
            let e = entry(scratch, i + k);
            name(e.at)
        }
        Names::Alternatives(e) => {
            let a = alternative(scratch, e - k);
            label(a.at)
        }
        Names::Branches(e) => {
            let b = branch(scratch, e - k);
            label(b.at)
        }
    }
}

// The name j comes among those before it.
fn seen_before(text: &[u8], scratch: &[u32], names: Names, j: usize) -> bool
    requires { Area scratch.now × Fits names (j + 1) }
    ensures { result ≡ seen_below (name_of text.now scratch.now names) (name_of text.now scratch.now names j).name j }
{
    let a = name_at(scratch, names, j);
    for k in (0..j).rev() {
        let b = name_at(scratch, names, k);
        if names_equal(text, a.letter, b.letter) {
            return true;
        }
    }
    false
}

// The name j where it repeats one before.
fn repeated_name(
    text: &[u8],
    scratch: &[u32],
    names: Names,
    j: usize,
    low: Option<usize>,
) -> Option<usize>
    requires { Area scratch.now × Fits names (j + 1) }
    ensures { Lowered low (repeat_at (name_of text.now scratch.now names) j) result }
{
    if seen_before(text, scratch, names, j) {
        let p = name_at(scratch, names, j);
        return lowered(low, p.at);
    }
    low
}

// The names of a list that come twice, at the second of a pair.
pub(crate) fn repeated_names(
    text: &[u8],
    scratch: &[u32],
    names: Names,
    count: usize,
    low: Option<usize>,
) -> Option<usize>
    requires { Area scratch.now × Fits names count }
    ensures { Lowered low (repeats [] (numbered (name_of text.now scratch.now names) 0 count)) result }
{
    let mut l = low;
    for j in 0..count {
        l = repeated_name(text, scratch, names, j, l);
    }
    l
}
