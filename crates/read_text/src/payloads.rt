// What a send sends or a recv takes, and the tokens about it.
ghost use Rattle.std.specs.Prelude.{◌≡◌, ◌+◌, ◌<◌, ◌≤◌, length};
ghost use Rattle.notation.specs.Limits.{text_limit};
ghost use Rattle.notation.specs.Tables.{term_kind_radix};
ghost use Rattle.notation.specs.Token.{kind_at};
ghost use Rattle.notation.specs.Processes.{payload, unit_taken};
ghost use Rattle.read_types.specs.Filling.{taken, Stepped, FitsTerm};
ghost use Rattle.read_text.specs.Processes.{payload_taken, payload_then, label_then, name_colon, payload_node};

use crate::store::term_node;
use notation::reading::{Cursor, TermNode};
use notation::refusal::Refusal;
use notation::token::{Payload, Token};
use read_types::steps::{expect, kind_at, label_term, misfit, opening, payload_head, process_term};

// What stands at an offset where a send or a recv wants something.
pub(crate) fn payload_at(text: &[u8], at: u16) -> Payload
    requires { length text.now ≤ text_limit }
    ensures { result ≡ payload (kind_at text.now at) }
{
    payload_head(kind_at(text, at))
}

// The mark (); as many brackets are open afterwards as before.
#[tactic(auto, unfolding(notation::specs::Processes::unit_taken))]
fn unit_mark(text: &[u8], c: &mut Cursor) -> Result<u16, Refusal>
    requires { length text.now ≤ text_limit }
    ensures { Stepped text.now c.old 2 0 0 (unit_taken text.now c.old) (taken result c.new) }
{
    let depth = c.depth;
    let i = opening(text, c, Token::ROUND_OPEN)?;
    expect(text, c, Token::ROUND_CLOSE)?;
    c.depth = depth;
    Ok(i)
}

// What a send sends or a recv takes: (), a name or a label, as its head says.
#[tactic(auto, unfolding(crate::specs::Processes::payload_taken))]
pub(crate) fn payload_token(text: &[u8], c: &mut Cursor, head: Payload) -> Result<u16, Refusal>
    requires { length text.now ≤ text_limit }
    ensures { Stepped text.now c.old 1 0 0 (payload_taken text.now c.old head) (taken result c.new) }
{
    match head {
        Payload::Unit => unit_mark(text, c),
        Payload::Channel => expect(text, c, Token::NAME),
        Payload::Label => expect(text, c, Token::LABEL),
        Payload::Other => Err(misfit(text, c.at)),
    }
}

// What a recv takes, and =>.
#[tactic(auto, unfolding(crate::specs::Processes::payload_then))]
pub(crate) fn payload_then(text: &[u8], c: &mut Cursor, head: Payload) -> Result<u16, Refusal>
    requires { length text.now ≤ text_limit }
    ensures { Stepped text.now c.old 3 0 0 (payload_then text.now c.old head) (taken result c.new) }
{
    let i = payload_token(text, c, head)?;
    expect(text, c, Token::THEN)?;
    Ok(i)
}

// A label of a branch list in which n came before, and =>.
#[tactic(auto, unfolding(crate::specs::Processes::label_then))]
pub(crate) fn label_then(text: &[u8], c: &mut Cursor, n: usize) -> Result<u16, Refusal>
    requires { length text.now ≤ text_limit }
    ensures { Stepped text.now c.old 4 0 0 (label_then text.now n c.old) (taken result c.new) }
{
    let i = label_term(text, c, n)?;
    expect(text, c, Token::THEN)?;
    Ok(i)
}

// The name that begins a spawn, and its colon.
#[tactic(auto, unfolding(crate::specs::Processes::name_colon))]
pub(crate) fn name_colon(text: &[u8], c: &mut Cursor) -> Result<u16, Refusal>
    requires { length text.now ≤ text_limit }
    ensures { Stepped text.now c.old 2 0 1 (name_colon text.now c.old) (taken result c.new) }
{
    let i = process_term(text, c, Token::NAME)?;
    expect(text, c, Token::COLON)?;
    Ok(i)
}

// The node of a send or a recv, by the first of its kinds: of (), of a channel, of a label.
#[tactic(auto, unfolding(crate::specs::Processes::payload_node))]
pub(crate) fn payload_node(unit: usize, at: u16, i: u16, j: u16, head: Payload) -> TermNode
    requires { (unit + 2 < term_kind_radix) × (at < text_limit) × (i < text_limit) × (j < text_limit) }
    ensures value { result ≡ payload_node unit head at i j }
    ensures fits_term { FitsTerm result }
{
    match head {
        Payload::Unit => term_node(unit, at, i, 0),
        Payload::Channel => term_node(unit + 1, at, i, j),
        Payload::Label => term_node(unit + 2, at, i, j),
        Payload::Other => term_node(unit, at, i, 0),
    }
}
