// The reading of signatures: lists of channels with their types.
ghost use Rattle.std.specs.Prelude.{◌≤◌, length};
ghost use Rattle.notation.specs.Limits.{text_limit};
ghost use Rattle.notation.specs.Scripts.{read_entries, entry_list};
ghost use Rattle.read_types.specs.Filling.{taken, reached, Stepped, Room};
ghost use Rattle.read_text.specs.Scripts.{entry_name, entries_or_none, EntriesRead};

use crate::store::put_entry;
use notation::reading::{Cursor, Tally};
use notation::refusal::Refusal;
use notation::token::Token;
use read_types::steps::{expect, kind_at, opening};
use read_types::types::read_type;

// The name of an entry, and its colon.
#[tactic(auto, unfolding(crate::specs::Scripts::entry_name))]
fn entry_name(text: &[u8], c: &mut Cursor) -> Result<u16, Refusal>
    requires { length text.now ≤ text_limit }
    ensures { Stepped text.now c.old 2 0 0 (entry_name text.now c.old) (taken result c.new) }
{
    let i = expect(text, c, Token::NAME)?;
    expect(text, c, Token::COLON)?;
    Ok(i)
}

// x : A, .. up to the bracket that closes.
fn read_entries(
    text: &[u8],
    scratch: &mut [u32],
    c: &mut Cursor,
    k: &mut Tally,
    close: usize,
) -> Result<(), Refusal>
    requires { Room text.now scratch.old c.old k.old × (close ≤ 31) }
    ensures { EntriesRead (λ m. read_entries m text.now close c.old) text.now scratch.old c.old k.old (reached result c.new k.new) scratch.new }
{
    loop {
        let i = entry_name(text, c)?;
        read_type(text, scratch, c, k)?;
        let node = k.last;
        put_entry(scratch, k, i, node);
        if kind_at(text, c.at) == Token::COMMA {
            expect(text, c, Token::COMMA)?;
        } else {
            expect(text, c, close)?;
            return Ok(());
        }
    }
}

// What stands in a list's brackets, and the one that closes it; nothing is appended where it is empty.
fn entries_or_none(
    text: &[u8],
    scratch: &mut [u32],
    c: &mut Cursor,
    k: &mut Tally,
    close: usize,
) -> Result<(), Refusal>
    requires { Room text.now scratch.old c.old k.old × (close ≤ 31) }
    ensures { EntriesRead (λ m. entries_or_none m text.now close c.old) text.now scratch.old c.old k.old (reached result c.new k.new) scratch.new }
{
    if kind_at(text, c.at) == Token::NAME {
        return read_entries(text, scratch, c, k, close);
    }
    expect(text, c, close)?;
    Ok(())
}

// A signature's list in its brackets.
pub(crate) fn entry_list(
    text: &[u8],
    scratch: &mut [u32],
    c: &mut Cursor,
    k: &mut Tally,
    opens: usize,
    closes: usize,
) -> Result<(), Refusal>
    requires { Room text.now scratch.old c.old k.old × (opens ≤ 31) × (closes ≤ 31) }
    ensures { EntriesRead (λ m. entry_list m text.now opens closes c.old) text.now scratch.old c.old k.old (reached result c.new k.new) scratch.new }
{
    let depth = c.depth;
    opening(text, c, opens)?;
    entries_or_none(text, scratch, c, k, closes)?;
    c.depth = depth;
    Ok(())
}
