// The names of a call's two lists, one after the other: they are not in the tables, but read again in the text.
ghost use Rattle.std.specs.Prelude.{◌≡◌};
ghost use Rattle.notation.specs.Token.{token_at, as_token};
ghost use Rattle.read_tables.specs.Names.{as_argument, argument_from, Forward};

use notation::token::{Lexeme, Token, next_lexeme};

// What a list goes on with: a name, by its offset, and the offset past it; or no name, and the offset past the bracket that closes the list.
#[derive(Clone, Copy)]
pub enum Argument {
    Name(usize, usize),
    End(usize),
}

// Past the bracket that opens a list.
pub fn list_start(text: &[u8], at: usize) -> usize
    ensures { result ≡ (token_at text.now at).end }
{
    let t = next_lexeme(text, at);
    t.end
}

// What stands next in a list, past a comma if there is one.
pub fn next_argument(text: &[u8], at: usize) -> Argument
    ensures value { result ≡ argument_from text.now at }
    ensures forward { Forward text.now at result }
{
    let t = next_lexeme(text, at);
    if t.kind == Token::COMMA {
        let u = next_lexeme(text, t.end);
        return as_argument(u);
    }
    as_argument(t)
}

fn as_argument(t: Lexeme) -> Argument
    ensures { result ≡ as_argument (as_token t) }
{
    if t.kind == Token::NAME {
        return Argument::Name(t.start, t.end);
    }
    Argument::End(t.end)
}
