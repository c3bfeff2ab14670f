// The reading of lists of names, of which none is kept.
ghost use Rattle.std.specs.Prelude.{◌≤◌, length};
ghost use Rattle.notation.specs.Limits.{text_limit};
ghost use Rattle.notation.specs.Token.{token_at};
ghost use Rattle.notation.specs.Processes.{read_names, name_list};
ghost use Rattle.read_types.specs.Filling.{taken};
ghost use Rattle.read_text.specs.Names.{NamesTaken, passed, list_end, names_or_none};

use notation::reading::Cursor;
use notation::refusal::Refusal;
use notation::token::Token;
use read_types::steps::{expect, kind_at, opening};

// Names with commas between them, up to the bracket that closes.
fn read_names(text: &[u8], c: &mut Cursor, close: usize) -> Result<(), Refusal>
    requires { (length text.now ≤ text_limit) × (close ≤ 31) }
    ensures { NamesTaken text.now c.old 0 (λ m. read_names m text.now close c.old) (passed 0 result c.new) }
{
    loop {
        expect(text, c, Token::NAME)?;
        if kind_at(text, c.at) == Token::COMMA {
            expect(text, c, Token::COMMA)?;
        } else {
            return list_end(text, c, close);
        }
    }
}

// The bracket that closes a list of names.
fn list_end(text: &[u8], c: &mut Cursor, close: usize) -> Result<(), Refusal>
    requires { (length text.now ≤ text_limit) × (close ≤ 31) }
    ensures { NamesTaken text.now c.old 0 (λ m. list_end text.now close c.old) (passed 0 result c.new) }
{
    expect(text, c, close)?;
    Ok(())
}

// What stands in a list's brackets, and the one that closes it.
fn names_or_none(text: &[u8], c: &mut Cursor, close: usize) -> Result<(), Refusal>
    requires { (length text.now ≤ text_limit) × (close ≤ 31) }
    ensures { NamesTaken text.now c.old 0 (λ m. names_or_none m text.now close c.old) (passed 0 result c.new) }
{
    if kind_at(text, c.at) == Token::NAME {
        return read_names(text, c, close);
    }
    list_end(text, c, close)
}

// A list of names in brackets; it is known by where it opens.
pub(crate) fn name_list(
    text: &[u8],
    c: &mut Cursor,
    opens: usize,
    closes: usize,
) -> Result<u16, Refusal>
    requires { (length text.now ≤ text_limit) × (opens ≤ 31) × (closes ≤ 31) }
    ensures { NamesTaken text.now c.old (token_at text.now c.old.at).start (λ m. name_list m text.now opens closes c.old) (taken result c.new) }
{
    let depth = c.depth;
    let i = opening(text, c, opens)?;
    names_or_none(text, c, closes)?;
    c.depth = depth;
    Ok(i)
}
