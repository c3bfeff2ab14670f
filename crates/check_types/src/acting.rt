// What a type lets a process do.
ghost use Rattle.std.specs.Prelude.{◌≡◌, ◌+◌, ◌<◌, ◌≤◌, length};
ghost use Rattle.notation.specs.Bytes.{same};
ghost use Rattle.notation.specs.Token.{name_at};
ghost use Rattle.notation.specs.Tables.{Area};
ghost use Rattle.read_tables.specs.Roots.{TypeIn, AlternativesIn};
ghost use Rattle.read_tables.specs.Whole.{Tables};
ghost use Rattle.check_types.specs.Acting.{StandsFor, PassingOf, ChoosingOf};
ghost use Rattle.check_types.specs.Labels.{first_labelled, pair_in, LeadsTo};

use crate::messages::{Choosing, Passing};
use notation::kinds;
use notation::tables::ALTERNATIVES_AT;
use notation::token::names_equal;
use read_tables::access::{declared_type, pair, type_node};
use read_tables::search::find_type;
use run_words::records::{PROVIDED, USED};

// The node that the node i stands for: a declared name's definition, else the node itself.
pub fn standing(text: &[u8], scratch: &[u32], i: usize) -> usize
    requires { Tables text.now scratch.now × TypeIn text.now scratch.now i }
    ensures { StandsFor text.now scratch.now i result }
{
    let n = type_node(scratch, i);
    if n.kind != kinds::NAMED {
        return i;
    }
    match find_type(text, scratch, n.second) {
        Some(j) => declared_type(scratch, j).number,
        None => i,
    }
}

// The channel that a channel of the type i passes.
pub fn passing(scratch: &[u32], i: usize) -> Option<Passing>
    requires { Area scratch.now × (i < 512) }
    ensures { PassingOf scratch.now i result }
{
    let n = type_node(scratch, i);
    let (sender, side) = match n.kind {
        kinds::TENSOR => (PROVIDED, USED),
        kinds::PAR => (USED, PROVIDED),
        kinds::LOLLI => (USED, USED),
        _ => return None,
    };
    Some(Passing {
        sender,
        side,
        what: n.first,
        after: n.second,
    })
}

// The labels of which a channel of the type i passes one.
pub fn choosing(scratch: &[u32], i: usize) -> Option<Choosing>
    requires { Area scratch.now × (i < 512) }
    ensures { ChoosingOf scratch.now i result }
{
    let n = type_node(scratch, i);
    let sender = match n.kind {
        kinds::PLUS => PROVIDED,
        kinds::WITH => USED,
        _ => return None,
    };
    Some(Choosing {
        sender,
        place: n.first,
        count: n.second,
    })
}

// Where the name of the label at `at` stands; past the end of the text there is none, and no sum that could wrap.
fn past(text: &[u8], at: usize) -> usize
    ensures { name_at text.now result ≡ name_at text.now (at + 1) }
{
    if at < text.len() { at + 1 } else { at }
}

// The labels whose apostrophes stand at a and at b have the same name.
pub fn labels_equal(text: &[u8], a: usize, b: usize) -> bool
    ensures { result ≡ same (name_at text.now (a + 1)) (name_at text.now (b + 1)) }
{
    names_equal(text, past(text, a), past(text, b))
}

// The number of the label whose apostrophe stands at `at`, among the n pairs before the place e of the table that begins at the word `table`.
pub(crate) fn label_number(
    text: &[u8],
    scratch: &[u32],
    table: usize,
    at: usize,
    e: usize,
    n: usize,
) -> Option<usize>
    requires { (n ≤ e) × (table + e ≤ length scratch.now) }
    ensures { result ≡ first_labelled text.now (pair_in scratch.now table) (name_at text.now (at + 1)) e n }
{
    for k in 0..n {
        let p = pair(scratch, table + (e - k - 1));
        if labels_equal(text, at, p.at) {
            return Some(p.number);
        }
    }
    None
}

// The type of the label whose apostrophe stands at `at`, among the n alternatives before the place e.
pub fn labelled(text: &[u8], scratch: &[u32], at: usize, e: usize, n: usize) -> Option<usize>
    requires { Tables text.now scratch.now × AlternativesIn text.now scratch.now e n }
    ensures { LeadsTo text.now scratch.now at e n result }
{
    label_number(text, scratch, ALTERNATIVES_AT, at, e, n)
}
