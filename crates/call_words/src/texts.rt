// What a text is made of, for those who show it to its writers: line and column of an offset, the token from an offset on, the tables of a text that is read, though it may be refused.
ghost use Rattle.std.specs.Prelude.{◌≡◌};
ghost use Rattle.call_words.specs.Words.{padded};
ghost use Rattle.call_words.specs.Texts.{PositionExported, TokenExported, TablesExported, position_words, token_words, reading_words};

use crate::laying::{ANSWER_SHORT, ANSWER_WORDS, tell};
use crate::words::{as_word, padded, refused_words};
use call_positions::position::{Position, position_at};
use notation::refusal::Refusal;
use notation::script::Script;
use notation::token::{Lexeme, next_lexeme};
use read_text::reading::read;

fn position_words(p: Position) -> [u32; ANSWER_WORDS]
    ensures { result ≡ padded (position_words p) }
{
    padded(&[0, as_word(p.line), as_word(p.column)])
}

fn token_words(t: Lexeme) -> [u32; ANSWER_WORDS]
    ensures { result ≡ padded (token_words t) }
{
    padded(&[0, as_word(t.kind), as_word(t.start), as_word(t.end)])
}

fn reading_words(r: Result<Script, Refusal>) -> [u32; ANSWER_WORDS]
    ensures { result ≡ padded (reading_words r) }
{
    match r {
        Ok(_) => padded(&[0]),
        Err(e) => refused_words(e),
    }
}

// Line and column of an offset, both counted from 1.
#[unsafe(no_mangle)]
pub extern "C" fn epass_position(text: &[u8], at: usize, answer: &mut [u32]) -> u32
    ensures { PositionExported text.now at answer.old result answer.new }
{
    if answer.len() < ANSWER_WORDS {
        return ANSWER_SHORT;
    }
    let p = position_at(text, at);
    tell(answer, position_words(p))
}

// The token from an offset on.
#[unsafe(no_mangle)]
pub extern "C" fn epass_token(text: &[u8], at: usize, answer: &mut [u32]) -> u32
    ensures { TokenExported text.now at answer.old result answer.new }
{
    if answer.len() < ANSWER_WORDS {
        return ANSWER_SHORT;
    }
    let t = next_lexeme(text, at);
    tell(answer, token_words(t))
}

// The tables of a text that refusals 1 to 5 let pass: no more of it is checked.
#[unsafe(no_mangle)]
pub extern "C" fn epass_tables(text: &[u8], scratch: &mut [u32], answer: &mut [u32]) -> u32
    ensures { TablesExported text.now scratch.old answer.old result scratch.new answer.new }
{
    if answer.len() < ANSWER_WORDS {
        return ANSWER_SHORT;
    }
    let r = read(text, scratch);
    tell(answer, reading_words(r))
}
