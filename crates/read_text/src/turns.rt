// One turn of the reading of a process, and the process that follows it.
ghost use Rattle.std.specs.Prelude.{◌≡◌, ◌<◌, ◌≤◌, ◌+◌, length};
ghost use Rattle.notation.specs.Limits.{process_term_limit, text_limit};
ghost use Rattle.notation.specs.Token.{token_at};
ghost use Rattle.notation.specs.Tables.{Area, put_term};
ghost use Rattle.read_types.specs.Filling.{Room, FitsTerm};
ghost use Rattle.read_text.specs.Turns.{peek, pointing, RestTurned};

use crate::store::put_term;
use notation::reading::{Cursor, Tally, TermNode};
use notation::refusal::Refusal;
use notation::script::Script;
use notation::token::{TermHead, Token, next_token};
use read_types::steps::{expect, term_head};

// After one term: a process follows here, or the whole process was read.
#[derive(Clone, Copy)]
pub enum Turn {
    On,
    Done,
}

// The pointer to the process that begins at `at`: the next node's number n, or the limit and the offset of an empty one.
#[tactic(auto, unfolding(crate::specs::Turns::peek))]
pub(crate) fn pointer(text: &[u8], at: u16, n: usize) -> usize
    requires { (length text.now ≤ text_limit) × (n ≤ process_term_limit) }
    ensures value { result ≡ peek text.now at n }
    ensures upper_bound { result ≤ process_term_limit + text_limit }
{
    let t = next_token(text, at);
    match term_head(t.kind) {
        TermHead::Empty => Script::PROCESS_TERMS + t.start as usize,
        _ => n,
    }
}

// The pointer to the process in the bracket that opens at `at`.
pub(crate) fn pointer_within(text: &[u8], at: u16, n: usize) -> usize
    requires { (length text.now ≤ text_limit) × (n ≤ process_term_limit) }
    ensures value { result ≡ peek text.now (token_at text.now at).end n }
    ensures upper_bound { result ≤ process_term_limit + text_limit }
{
    let t = next_token(text, at);
    pointer(text, t.end, n)
}

// The node n of the term i, with the pointer to what follows it.
fn put_pointing(scratch: &mut [u32], i: usize, n: TermNode, third: usize)
    requires area { Area scratch.old × (i < process_term_limit) × (third ≤ process_term_limit + text_limit) }
    requires fits_term { FitsTerm n }
    ensures { scratch.new ≡ put_term scratch.old i (pointing n third) }
{
    put_term(scratch, i, TermNode { third, ..n });
}

// The node n of the term i, which the process at `at` follows; `next` is the number of its node.
pub(crate) fn put_before(
    text: &[u8],
    scratch: &mut [u32],
    at: u16,
    next: usize,
    i: usize,
    n: TermNode,
)
    requires text_len_bound { (length text.now ≤ text_limit) × Area scratch.old × (next ≤ process_term_limit) × (i < process_term_limit) }
    requires fits_term { FitsTerm n }
    ensures { scratch.new ≡ put_term scratch.old i (pointing n (peek text.now at next)) }
{
    let third = pointer(text, at, next);
    put_pointing(scratch, i, n, third);
}

// After the term i, whose node is n: a semicolon and a process, or nothing. The node is put once its pointer is known.
pub(crate) fn follow(
    text: &[u8],
    scratch: &mut [u32],
    c: &mut Cursor,
    k: &Tally,
    i: usize,
    n: TermNode,
) -> Result<Turn, Refusal>
    requires room { Room text.now scratch.old c.old k.now × (i < process_term_limit) }
    requires fits_term { FitsTerm n }
    ensures { RestTurned i n text.now scratch.old c.old k.now result c.new k.now scratch.new }
{
    let t = next_token(text, c.at);
    if t.kind == Token::SEMICOLON {
        expect(text, c, Token::SEMICOLON)?;
        put_before(text, scratch, c.at, k.terms, i, n);
        return Ok(Turn::On);
    }
    put_pointing(scratch, i, n, Script::PROCESS_TERMS + t.start as usize);
    Ok(Turn::Done)
}
