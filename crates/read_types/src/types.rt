// The reading of types: "a type is an atom, or an atom, an infix mark and a type". Calls go as deep as brackets are open: a type is a loop over
// its atoms, a choice one over its alternatives. But for read_type, each function of the cycle
// is called in one place, so that the compiler makes one frame a bracket of them.
ghost use Rattle.std.specs.Prelude.{◌≡◌, ◌+◌, ◌<◌, ◌≤◌, length};
ghost use Rattle.notation.specs.Limits.{label_limit, text_limit, type_term_limit};
ghost use Rattle.notation.specs.Tables.{Area, put_node, more_nodes};
ghost use Rattle.read_types.specs.Filling.{Fits, taken, reached, Stepped, label_colon, choice_opening, infix_kind, root_before, Waits, MarkPut, whole_root, listed, put_listed, Put, Room, TypeRead, AtomRead, AlternativesRead, OneRead, NameRead, RoundRead, ChoiceRead};

use crate::steps::{expect, is_choice, is_infix, kind_at, label_term, misfit, opening, type_term};
use crate::store::{pair_word, put_list, put_node};
use notation::kinds;
use notation::reading::{Cursor, Tally, TypeNode};
use notation::refusal::Refusal;
use notation::script::Script;
use notation::tables::ALTERNATIVES_AT;
use notation::token::Token;

// From the kind of a choice's mark to the kind of its node.
const CHOICE_SHIFT: usize = Token::PLUS - kinds::PLUS;

// A label and its colon.
#[tactic(auto, unfolding(crate::specs::Filling::label_colon))]
fn label_colon(text: &[u8], c: &mut Cursor, n: usize) -> Result<u16, Refusal>
    requires { length text.now ≤ text_limit }
    ensures { Stepped text.now c.old 3 0 0 (label_colon text.now n c.old) (taken result c.new) }
{
    let i = label_term(text, c, n)?;
    expect(text, c, Token::COLON)?;
    Ok(i)
}

// The mark of a choice and its brace.
#[tactic(auto, unfolding(crate::specs::Filling::choice_opening))]
fn choice_opening(text: &[u8], c: &mut Cursor, kind: usize) -> Result<u16, Refusal>
    requires { (length text.now ≤ text_limit) × (kind ≤ 31) }
    ensures { Stepped text.now c.old 2 1 0 (choice_opening text.now kind c.old) (taken result c.new) }
{
    let i = type_term(text, c, kind)?;
    opening(text, c, Token::BRACE_OPEN)?;
    Ok(i)
}

// The node kind of an infix mark.
#[tactic(auto, unfolding(crate::specs::Filling::infix_kind))]
fn infix_kind(kind: usize) -> usize
    ensures value { result ≡ infix_kind kind }
    ensures upper_bound { result < 8 }
{
    match kind {
        Token::STAR => kinds::TENSOR,
        Token::AT => kinds::PAR,
        _ => kinds::LOLLI,
    }
}

// The root of a type whose first atom fills the tables up to l, where a token of this kind follows.
#[tactic(auto, unfolding(crate::specs::Filling::root_before))]
fn root_before(kind: usize, l: &Tally) -> usize
    requires { l.now.last < l.now.nodes }
    ensures value { result ≡ root_before kind l.now }
    ensures upper_bound { result ≤ l.now.nodes }
{
    if is_infix(kind) { l.nodes } else { l.last }
}

// The node i of the mark before an atom: of this kind, between these roots. Where no mark stands before it, nothing is written.
#[tactic(auto, using(crate::proofs::Filled::node_kept, crate::proofs::Filled::same), unfolding(crate::specs::Filling::put_mark))]
fn put_infix(scratch: &mut [u32], i: usize, mark: usize, left: usize, right: usize)
    requires area { Area scratch.old × (right ≤ type_term_limit) }
    requires waits { Waits mark i left }
    ensures { MarkPut mark i left right scratch.old scratch.new }
{
    if is_infix(mark) {
        put_node(
            scratch,
            i,
            TypeNode {
                kind: infix_kind(mark),
                first: left,
                second: right,
            },
        );
    }
}

// The root of the whole type, where `right` is the root from the atom on that stands after this mark, or first.
#[tactic(auto, unfolding(crate::specs::Filling::whole_root))]
fn whole_root(mark: usize, root: usize, right: usize) -> usize
    ensures { result ≡ whole_root mark root right }
{
    if is_infix(mark) { root } else { right }
}

// Appends a list of n alternatives, whose words were kept.
fn put_alternatives(scratch: &mut [u32], kept: &[u32; Script::LABELS], n: usize, k: &mut Tally)
    requires { Area scratch.old × (n ≤ label_limit) × (k.old.alternatives + n ≤ type_term_limit) }
    ensures { Put scratch.old (put_listed kept.now n k.old scratch.old) (listed n k.old) k.new scratch.new }
{
    put_list(scratch, kept, n, ALTERNATIVES_AT + k.alternatives);
    k.alternatives += n;
    k.last = n;
}

// Counts a node more, which was read last.
fn count_node(k: &mut Tally)
    requires { k.old.nodes < type_term_limit }
    ensures { k.new ≡ more_nodes k.old }
{
    k.last = k.nodes;
    k.nodes += 1;
}

// Appends a node, which was read last.
#[tactic(auto, using(crate::proofs::Filled::node_kept))]
fn append_node(scratch: &mut [u32], k: &mut Tally, n: TypeNode)
    requires { Area scratch.old × (k.old.nodes < type_term_limit) × Fits n }
    ensures { Put scratch.old (put_node scratch.old k.old.nodes n) (more_nodes k.old) k.new scratch.new }
{
    put_node(scratch, k.nodes, n);
    count_node(k);
}

// The type 1.
fn one_type(text: &[u8], scratch: &mut [u32], c: &mut Cursor, k: &mut Tally) -> Result<(), Refusal>
    requires { Room text.now scratch.old c.old k.old }
    ensures { OneRead text.now scratch.old c.old k.old (reached result c.new k.new) scratch.new }
{
    type_term(text, c, Token::ONE)?;
    append_node(
        scratch,
        k,
        TypeNode {
            kind: kinds::UNIT,
            first: 0,
            second: 0,
        },
    );
    Ok(())
}

// A type that is a name, which its node keeps by the offset.
fn name_type(text: &[u8], scratch: &mut [u32], c: &mut Cursor, k: &mut Tally) -> Result<(), Refusal>
    requires { Room text.now scratch.old c.old k.old }
    ensures { NameRead text.now scratch.old c.old k.old (reached result c.new k.new) scratch.new }
{
    let i = type_term(text, c, Token::NAME)?;
    append_node(
        scratch,
        k,
        TypeNode {
            kind: kinds::NAMED,
            first: 0,
            second: i as usize,
        },
    );
    Ok(())
}

// An atom, by what begins it.
#[cycle(read_alternatives_read_atom_read_choice_read_round_read_type)]
fn read_atom(text: &[u8], scratch: &mut [u32], c: &mut Cursor, k: &mut Tally) -> Result<(), Refusal>
    requires { Room text.now scratch.old c.old k.old }
    ensures { AtomRead text.now scratch.old c.old k.old (reached result c.new k.new) scratch.new }
{
    let kind = kind_at(text, c.at);
    if kind == Token::ONE {
        return one_type(text, scratch, c, k);
    }
    if kind == Token::NAME {
        return name_type(text, scratch, c, k);
    }
    if kind == Token::ROUND_OPEN {
        return read_round(text, scratch, c, k);
    }
    if is_choice(kind) {
        return read_choice(text, scratch, c, k, kind);
    }
    Err(misfit(text, c.at))
}

// A type in round brackets; as many are open afterwards as before.
#[cycle(read_alternatives_read_atom_read_choice_read_round_read_type)]
fn read_round(
    text: &[u8],
    scratch: &mut [u32],
    c: &mut Cursor,
    k: &mut Tally,
) -> Result<(), Refusal>
    requires { Room text.now scratch.old c.old k.old }
    ensures { RoundRead text.now scratch.old c.old k.old (reached result c.new k.new) scratch.new }
{
    let depth = c.depth;
    opening(text, c, Token::ROUND_OPEN)?;
    read_type(text, scratch, c, k)?;
    expect(text, c, Token::ROUND_CLOSE)?;
    c.depth = depth;
    Ok(())
}

// A choice whose mark has this kind: `+`, 28, or `&`, 29. It has its number before its alternatives, and its node after them.
#[cycle(read_alternatives_read_atom_read_choice_read_round_read_type)]
fn read_choice(
    text: &[u8],
    scratch: &mut [u32],
    c: &mut Cursor,
    k: &mut Tally,
    kind: usize,
) -> Result<(), Refusal>
    requires room { Room text.now scratch.old c.old k.old }
    requires le_kind { (28 ≤ kind) × (kind ≤ 29) }
    ensures { ChoiceRead kind text.now scratch.old c.old k.old (reached result c.new k.new) scratch.new }
{
    let depth = c.depth;
    choice_opening(text, c, kind)?;
    let i = k.nodes;
    count_node(k);
    read_alternatives(text, scratch, c, k)?;
    expect(text, c, Token::BRACE_CLOSE)?;
    c.depth = depth;
    put_node(
        scratch,
        i,
        TypeNode {
            kind: kind - CHOICE_SHIFT,
            first: k.alternatives,
            second: k.last,
        },
    );
    k.last = i;
    Ok(())
}

// The alternatives of a choice; the words of those that were read are kept until the list ends.
#[cycle(read_alternatives_read_atom_read_choice_read_round_read_type)]
fn read_alternatives(
    text: &[u8],
    scratch: &mut [u32],
    c: &mut Cursor,
    k: &mut Tally,
) -> Result<(), Refusal>
    requires { Room text.now scratch.old c.old k.old }
    ensures { AlternativesRead text.now scratch.old c.old k.old (reached result c.new k.new) scratch.new }
{
    let mut n: usize = 0;
    let mut kept: [u32; Script::LABELS] = [0; Script::LABELS];
    loop {
        let i = label_colon(text, c, n)?;
        read_type(text, scratch, c, k)?;
        kept[n] = pair_word(i, k.last);
        n += 1;
        if kind_at(text, c.at) == Token::COMMA {
            expect(text, c, Token::COMMA)?;
        } else {
            put_alternatives(scratch, &kept, n, k);
            return Ok(());
        }
    }
}

// A type: a turn for each atom. The node of the mark before it is written once the root to that mark's right is known.
#[cycle(read_alternatives_read_atom_read_choice_read_round_read_type)]
pub fn read_type(
    text: &[u8],
    scratch: &mut [u32],
    c: &mut Cursor,
    k: &mut Tally,
) -> Result<(), Refusal>
    requires { Room text.now scratch.old c.old k.old }
    ensures { TypeRead text.now scratch.old c.old k.old (reached result c.new k.new) scratch.new }
{
    let mut mark = Token::END;
    let mut left: usize = 0;
    let mut root: usize = 0;
    loop {
        let waiting = k.last;
        read_atom(text, scratch, c, k)?;
        let next = kind_at(text, c.at);
        let right = root_before(next, k);
        put_infix(scratch, waiting, mark, left, right);
        root = whole_root(mark, root, right);
        if is_infix(next) {
            type_term(text, c, next)?;
            mark = next;
            left = k.last;
            count_node(k);
        } else {
            k.last = root;
            return Ok(());
        }
    }
}
