// The steps that every reading is made of: a token that is wanted, and what a token begins.
ghost use Rattle.std.specs.Prelude.{◌≡◌, ◌≤◌, length};
ghost use Rattle.notation.specs.Limits.{text_limit};
ghost use Rattle.notation.specs.Token.{kind_at};
ghost use Rattle.notation.specs.Onward.{width};
ghost use Rattle.notation.specs.Reader.{fault, expect, opening, type_term, process_term};
ghost use Rattle.notation.specs.Types.{is_infix, label_term};
ghost use Rattle.notation.specs.Processes.{term_head, payload};
ghost use Rattle.notation.specs.Refusals.{refusal};
ghost use Rattle.read_types.specs.Filling.{Stepped, is_choice, misfit_refusal, taken, within_limit};

use notation::reading::Cursor;
use notation::refusal::Refusal;
use notation::script::Script;
use notation::token::{Payload, TermHead, Token, next_token};

// The kind of the next token.
pub fn kind_at(text: &[u8], at: u16) -> usize
    requires { length text.now ≤ text_limit }
    ensures { result ≡ kind_at text.now at }
{
    next_token(text, at).kind
}

// What a token that is not wanted is refused as.
fn fault(t: Token) -> Refusal
    ensures { result ≡ refusal (fault t) t.start }
{
    let number = if t.kind == Token::FAULT {
        Refusal::NO_TOKEN
    } else {
        Refusal::NO_SCRIPT
    };
    Refusal {
        number,
        at: t.start as usize,
    }
}

// No token fits here.
pub fn misfit(text: &[u8], at: u16) -> Refusal
    requires { length text.now ≤ text_limit }
    ensures { result ≡ misfit_refusal text.now at }
{
    fault(next_token(text, at))
}

// The token of this kind, which the cursor goes past; or the refusal where another stands.
pub fn expect(text: &[u8], c: &mut Cursor, kind: usize) -> Result<u16, Refusal>
    requires { (length text.now ≤ text_limit) × (kind ≤ 31) }
    ensures { Stepped text.now c.old (width kind) 0 0 (expect text.now kind c.old) (taken result c.new) }
{
    let t = next_token(text, c.at);
    if t.kind == kind {
        c.at = t.end;
        return Ok(t.start);
    }
    Err(fault(t))
}

// The token at i, before which n were counted, is within their limit.
pub fn within_limit(i: u16, n: usize, limit: usize) -> Result<(), Refusal>
    ensures { result ≡ within_limit i n limit }
{
    if n < limit {
        return Ok(());
    }
    Err(Refusal {
        number: Refusal::OVER_LIMIT,
        at: i as usize,
    })
}

// A bracket that opens.
#[tactic(auto, unfolding(notation::specs::Reader::opening))]
pub fn opening(text: &[u8], c: &mut Cursor, kind: usize) -> Result<u16, Refusal>
    requires { (length text.now ≤ text_limit) × (kind ≤ 31) }
    ensures { Stepped text.now c.old (width kind) 0 0 (opening text.now kind c.old) (taken result c.new) }
{
    let i = expect(text, c, kind)?;
    within_limit(i, c.depth, Script::BRACKETS)?;
    c.depth += 1;
    Ok(i)
}

// A token that is a type term.
#[tactic(auto, unfolding(notation::specs::Reader::type_term))]
pub(crate) fn type_term(text: &[u8], c: &mut Cursor, kind: usize) -> Result<u16, Refusal>
    requires { (length text.now ≤ text_limit) × (kind ≤ 31) }
    ensures { Stepped text.now c.old (width kind) 1 0 (type_term text.now kind c.old) (taken result c.new) }
{
    let i = expect(text, c, kind)?;
    within_limit(i, c.types, Script::TYPE_TERMS)?;
    c.types += 1;
    Ok(i)
}

// A token that begins a process term.
#[tactic(auto, unfolding(notation::specs::Reader::process_term))]
pub fn process_term(text: &[u8], c: &mut Cursor, kind: usize) -> Result<u16, Refusal>
    requires { (length text.now ≤ text_limit) × (kind ≤ 31) }
    ensures { Stepped text.now c.old (width kind) 0 1 (process_term text.now kind c.old) (taken result c.new) }
{
    let i = expect(text, c, kind)?;
    within_limit(i, c.terms, Script::PROCESS_TERMS)?;
    c.terms += 1;
    Ok(i)
}

// A label of a list in which n came before.
#[tactic(auto, unfolding(notation::specs::Types::label_term))]
pub fn label_term(text: &[u8], c: &mut Cursor, n: usize) -> Result<u16, Refusal>
    requires { length text.now ≤ text_limit }
    ensures { Stepped text.now c.old 2 0 0 (label_term text.now n c.old) (taken result c.new) }
{
    let i = expect(text, c, Token::LABEL)?;
    within_limit(i, n, Script::LABELS)?;
    Ok(i)
}

// Whether a token of this kind is the mark of a choice.
#[tactic(auto, unfolding(crate::specs::Filling::is_choice))]
pub(crate) fn is_choice(kind: usize) -> bool
    ensures { result ≡ is_choice kind }
{
    kind == Token::PLUS || kind == Token::WITH
}

#[tactic(auto, unfolding(notation::specs::Types::is_infix))]
pub(crate) fn is_infix(kind: usize) -> bool
    ensures { result ≡ is_infix kind }
{
    kind == Token::STAR || kind == Token::AT || kind == Token::LOLLI
}

// What a token of this kind begins where a process may stand.
#[tactic(auto, unfolding(notation::specs::Processes::term_head))]
pub fn term_head(kind: usize) -> TermHead
    ensures { result ≡ term_head kind }
{
    match kind {
        Token::SEND => TermHead::Send,
        Token::RECV => TermHead::Recv,
        Token::FWD => TermHead::Fwd,
        Token::CALL => TermHead::Call,
        Token::CANCEL => TermHead::Cancel,
        Token::RAISE => TermHead::Raise,
        Token::TRY => TermHead::Try,
        Token::NAME => TermHead::Spawn,
        _ => TermHead::Empty,
    }
}

// What follows the channel of a send, or the bracket of a recv.
#[tactic(auto, unfolding(notation::specs::Processes::payload))]
pub fn payload_head(kind: usize) -> Payload
    ensures { result ≡ payload kind }
{
    match kind {
        Token::ROUND_OPEN => Payload::Unit,
        Token::NAME => Payload::Channel,
        Token::LABEL => Payload::Label,
        _ => Payload::Other,
    }
}
