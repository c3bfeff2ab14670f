// The terms that have no brackets with processes in them.
ghost use Rattle.std.specs.Prelude.{◌<◌};
ghost use Rattle.notation.specs.Limits.{text_limit};
ghost use Rattle.notation.specs.Tables.{more_terms};
ghost use Rattle.notation.specs.declared.token.TermHead.TheVariants.{Send, Fwd, Call, Cancel, Raise};
ghost use Rattle.read_types.specs.Filling.{reached, Room};
ghost use Rattle.read_text.specs.Processes.{TermRead, TermTurned, SentTurned};

use crate::names::name_list;
use crate::payloads::{payload_at, payload_node, payload_token};
use crate::store::{put_term, term_node};
use crate::turns::{Turn, follow, put_before};
use notation::kinds;
use notation::reading::{Cursor, Tally};
use notation::refusal::Refusal;
use notation::token::{Payload, Token};
use read_types::steps::{expect, process_term};

// send c (), send c a, send c 'l
pub(crate) fn read_send(
    text: &[u8],
    scratch: &mut [u32],
    c: &mut Cursor,
    k: &mut Tally,
) -> Result<Turn, Refusal>
    requires { Room text.now scratch.old c.old k.old }
    ensures { TermTurned Send text.now scratch.old c.old k.old result c.new k.new scratch.new }
{
    let at = process_term(text, c, Token::SEND)?;
    let i = expect(text, c, Token::NAME)?;
    let head = payload_at(text, c.at);
    read_sent(text, scratch, c, k, at, i, head)
}

// What follows the channel of a send: what is sent, and the rest.
fn read_sent(
    text: &[u8],
    scratch: &mut [u32],
    c: &mut Cursor,
    k: &mut Tally,
    at: u16,
    i: u16,
    head: Payload,
) -> Result<Turn, Refusal>
    requires room { Room text.now scratch.old c.old (more_terms k.old) }
    requires at_lt_text_limit { (at < text_limit) × (i < text_limit) }
    ensures { SentTurned at i head text.now scratch.old c.old k.old result c.new k.new scratch.new }
{
    let j = payload_token(text, c, head)?;
    let term = k.terms;
    k.terms += 1;
    let n = payload_node(kinds::SEND_UNIT, at, i, j, head);
    follow(text, scratch, c, k, term, n)
}

// cancel c
pub(crate) fn read_cancel(
    text: &[u8],
    scratch: &mut [u32],
    c: &mut Cursor,
    k: &mut Tally,
) -> Result<Turn, Refusal>
    requires { Room text.now scratch.old c.old k.old }
    ensures { TermTurned Cancel text.now scratch.old c.old k.old result c.new k.new scratch.new }
{
    let at = process_term(text, c, Token::CANCEL)?;
    let i = expect(text, c, Token::NAME)?;
    let term = k.terms;
    k.terms += 1;
    let n = term_node(kinds::CANCEL, at, i, 0);
    follow(text, scratch, c, k, term, n)
}

// raise P
pub(crate) fn read_raise(
    text: &[u8],
    scratch: &mut [u32],
    c: &mut Cursor,
    k: &mut Tally,
) -> Result<Turn, Refusal>
    requires { Room text.now scratch.old c.old k.old }
    ensures { TermTurned Raise text.now scratch.old c.old k.old result c.new k.new scratch.new }
{
    let at = process_term(text, c, Token::RAISE)?;
    let term = k.terms;
    k.terms += 1;
    let n = term_node(kinds::RAISE, at, 0, 0);
    put_before(text, scratch, c.at, k.terms, term, n);
    Ok(Turn::On)
}

// fwd x c
pub(crate) fn read_fwd(
    text: &[u8],
    scratch: &mut [u32],
    c: &mut Cursor,
    k: &mut Tally,
) -> Result<(), Refusal>
    requires { Room text.now scratch.old c.old k.old }
    ensures { TermRead Fwd text.now scratch.old c.old k.old (reached result c.new k.new) scratch.new }
{
    let at = process_term(text, c, Token::FWD)?;
    let i = expect(text, c, Token::NAME)?;
    let j = expect(text, c, Token::NAME)?;
    let n = term_node(kinds::FWD, at, i, j);
    put_term(scratch, k.terms, n);
    k.terms += 1;
    Ok(())
}

// call p (x, ..) [y, ..]
pub(crate) fn read_call(
    text: &[u8],
    scratch: &mut [u32],
    c: &mut Cursor,
    k: &mut Tally,
) -> Result<(), Refusal>
    requires { Room text.now scratch.old c.old k.old }
    ensures { TermRead Call text.now scratch.old c.old k.old (reached result c.new k.new) scratch.new }
{
    let at = process_term(text, c, Token::CALL)?;
    let i = expect(text, c, Token::NAME)?;
    let bracket = name_list(text, c, Token::ROUND_OPEN, Token::ROUND_CLOSE)?;
    name_list(text, c, Token::SQUARE_OPEN, Token::SQUARE_CLOSE)?;
    let n = term_node(kinds::CALL, at, i, bracket);
    put_term(scratch, k.terms, n);
    k.terms += 1;
    Ok(())
}
