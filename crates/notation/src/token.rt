// Tokens: what stands at an offset of a text.
ghost use Rattle.std.specs.Prelude.{◌≡◌, ℕ, ◌+◌, ◌-◌, ◌≤◌, ◌<◌, true, not, cond, [], ◌∷◌, ltb, length, get_or, take, drop};
ghost use Rattle.notation.specs.Bytes.{letter, name_byte, blank, same};
ghost use Rattle.notation.specs.Token.{symbols, symbol, skip, name_end, name_at, name_token, word_at, label_at, mark_at, first_at, token_at, as_token};
ghost use Rattle.notation.specs.SymbolTable.{rows, beginning};
ghost use Rattle.notation.specs.Onward.{Onward};
ghost use Rattle.notation.specs.Limits.{text_limit};

use crate::script::Script;

// A token as the reading carries it: its kind, where its first byte stands, and where the byte after its last one stands.
// "No offset passes 8,192", the end of a full text: sixteen bits hold each.
// Kinds 0 to 10 are the reserved words, 11 to 29 the marks, in the order of the definition's table.
#[derive(Clone, Copy)]
pub struct Token {
    pub kind: usize,
    pub start: u16,
    pub end: u16,
}

impl Token {
    pub const TYPE: usize = 0;

    pub const PROC: usize = 1;

    pub const EXEC: usize = 2;

    pub const SEND: usize = 3;

    pub const RECV: usize = 4;

    pub const FWD: usize = 5;

    pub const CALL: usize = 6;

    pub const CANCEL: usize = 7;

    pub const RAISE: usize = 8;

    pub const TRY: usize = 9;

    pub const CATCH: usize = 10;

    pub const LOLLI: usize = 11;

    pub const FROM: usize = 12;

    pub const THEN: usize = 13;

    pub const ROUND_OPEN: usize = 14;

    pub const ROUND_CLOSE: usize = 15;

    pub const SQUARE_OPEN: usize = 16;

    pub const SQUARE_CLOSE: usize = 17;

    pub const BRACE_OPEN: usize = 18;

    pub const BRACE_CLOSE: usize = 19;

    pub const COLON: usize = 20;

    pub const COMMA: usize = 21;

    pub const SEMICOLON: usize = 22;

    pub const EQUALS: usize = 23;

    pub const BAR: usize = 24;

    pub const ONE: usize = 25;

    pub const STAR: usize = 26;

    pub const AT: usize = 27;

    pub const PLUS: usize = 28;

    pub const WITH: usize = 29;

    pub const NAME: usize = 30;

    pub const LABEL: usize = 31;

    pub const FAULT: usize = 32;

    pub const END: usize = 33;
}

// A token of any text, however long: the check and the run read a call's names again in texts that they have not measured.
#[derive(Clone, Copy)]
pub struct Lexeme {
    pub kind: usize,
    pub start: usize,
    pub end: usize,
}

// What begins a type.
#[derive(Clone, Copy)]
pub enum TypeHead {
    One,
    Name,
    Round,
    Plus,
    With,
    Other,
}

// What begins a process: the first token of a term; a name begins a spawn, and what begins no term leaves the process empty.
#[derive(Clone, Copy)]
pub enum TermHead {
    Send,
    Recv,
    Fwd,
    Call,
    Cancel,
    Raise,
    Try,
    Spawn,
    Empty,
}

// What follows the channel of a send, or the bracket of a recv.
#[derive(Clone, Copy)]
pub enum Payload {
    Unit,
    Channel,
    Label,
    Other,
}

// What begins a declaration; End where no token is left.
#[derive(Clone, Copy)]
pub enum DeclarationHead {
    TypeWord,
    ProcWord,
    ExecWord,
    End,
    Other,
}

// "The eleven reserved words stand in one table": each with its length, in a row of seven bytes.
const WORDS: [u8; 77] =
    *b"\x04type\x00\x00\x04proc\x00\x00\x04exec\x00\x00\x04send\x00\x00\x04recv\x00\x00\x03fwd\x00\x00\x00\x04call\x00\x00\x06cancel\x05raise\x00\x03try\x00\x00\x00\x05catch\x00";

// Tests of bytes are comparisons: a table would be made anew on the stack for each byte.
#[tactic(auto, unfolding(crate::specs::Bytes::letter))]
fn is_letter(b: u8) -> bool
    ensures { result ≡ letter b }
{
    b.is_ascii_alphabetic()
}

// A byte that a name has: a letter, a digit or _. Most are letters, so these are tested first.
#[tactic(auto, unfolding(crate::specs::Bytes::letter, crate::specs::Bytes::name_byte))]
pub fn is_name_byte(b: u8) -> bool
    ensures { result ≡ name_byte b }
{
    if is_letter(b) {
        return true;
    }
    b.is_ascii_digit() || b == b'_'
}

#[tactic(auto, unfolding(crate::specs::Bytes::blank))]
fn is_blank(b: u8) -> bool
    ensures { result ≡ blank b }
{
    matches!(b, b' ' | b'\t' | b'\n' | b'\r')
}

// The byte at i, and 0 past the end.
pub fn byte_at(text: &[u8], i: usize) -> u8
    ensures { result ≡ get_or text.now i 0 }
{
    if i < text.len() { text[i] } else { 0 }
}

// Where the next byte stands that is no blank.
fn skip(text: &[u8], at: usize) -> usize
    ensures { result ≡ skip text.now at }
{
    let mut i = at;
    while i < text.len() && is_blank(text[i]) {
        i += 1;
    }
    i
}

// Where the name ends that begins at `at`.
fn name_end(text: &[u8], at: usize) -> usize
    ensures value { result ≡ name_end text.now at }
    ensures lower_bound { at ≤ result }
{
    let mut i = at;
    while i < text.len() && is_name_byte(text[i]) {
        i += 1;
    }
    i
}

// The bytes w are the k-th reserved word.
fn is_word(w: &[u8], table: &[u8], k: usize) -> bool
    requires { (k < 11) × (table.now ≡ rows (take 11 symbols)) }
    ensures { result ≡ same w.now (get_or symbols k []) }
{
    let row = k * 7;
    let n = table[row] as usize;
    let from = row + 1;
    let to = from + n;
    w == &table[from..to]
}

// The first reserved word that begins with a letter.
fn first_word(b: u8) -> usize
    requires { letter b ≡ true }
    ensures { result ≡ beginning b 0 }
{
    match b {
        b't' => Token::TYPE,
        b'p' => Token::PROC,
        b'e' => Token::EXEC,
        b's' => Token::SEND,
        b'r' => Token::RECV,
        b'f' => Token::FWD,
        b'c' => Token::CALL,
        _ => Token::NAME,
    }
}

// The next reserved word that begins as the k-th does.
fn next_word(k: usize) -> usize
    requires { k < 11 }
    ensures value { result ≡ beginning (get_or (get_or symbols k []) 0 0) (k + 1) }
    ensures lower_bound { k < result }
{
    match k {
        Token::TYPE => Token::TRY,
        Token::RECV => Token::RAISE,
        Token::CALL => Token::CANCEL,
        Token::CANCEL => Token::CATCH,
        _ => Token::NAME,
    }
}

// The kind of the bytes w, which begin with the same letter as the word `from` does and are none before it.
fn word_from(w: &[u8], from: usize) -> usize
    requires { (letter (get_or w.now 0 0) ≡ true) × (from ≡ beginning (get_or w.now 0 0) 0) }
    ensures { result ≡ symbol w.now }
{
    let table = WORDS;
    let mut k = from;
    while k <= Token::CATCH {
        if is_word(w, &table, k) {
            return k;
        }
        k = next_word(k);
    }
    k
}

// The n bytes from i, or as many as there are.
fn part(text: &[u8], i: usize, n: usize) -> &[u8]
    ensures { result.now ≡ take n (drop i text.now) }
{
    if text.len() <= i {
        return &text[..0];
    }
    if text.len() - i <= n {
        return &text[i..];
    }
    let e = i + n;
    &text[i..e]
}

// The bytes of the name that begins at `at`.
#[tactic(auto, unfolding(crate::specs::Token::name_at))]
pub fn name_of(text: &[u8], at: usize) -> &[u8]
    ensures { result.now ≡ name_at text.now at }
{
    let e = name_end(text, at);
    part(text, at, e - at)
}

// The names that begin at a and at b have the same bytes.
pub fn names_equal(text: &[u8], a: usize, b: usize) -> bool
    ensures { result ≡ same (name_at text.now a) (name_at text.now b) }
{
    if a == b {
        return true;
    }
    let mut x = a;
    let mut y = b;
    while x < text.len() {
        let c = text[x];
        let d = byte_at(text, y);
        if !is_name_byte(c) {
            return !is_name_byte(d);
        }
        if c != d {
            return false;
        }
        x += 1;
        y += 1;
    }
    !is_name_byte(byte_at(text, y))
}

// How many bytes the name has that begins at `at`.
#[tactic(auto, using(crate::proofs::Names::name_long))]
pub fn name_length(text: &[u8], at: usize) -> usize
    ensures { result ≡ length (name_at text.now at) }
{
    name_end(text, at) - at
}

// The name that begins at `there` is the one of n bytes that begins at `at`: compared from the end, where names mostly differ.
// Past the end of the text there is the empty name.
pub fn has_name(text: &[u8], at: usize, n: usize, there: usize) -> bool
    requires { n ≡ length (name_at text.now at) }
    ensures { result ≡ same (name_at text.now at) (name_at text.now there) }
{
    if text.len() <= there {
        return n == 0;
    }
    if text.len() - there < n {
        return false;
    }
    for k in (0..n).rev() {
        if text[at + k] != text[there + k] {
            return false;
        }
    }
    !is_name_byte(byte_at(text, there + n))
}

// A token of this kind whose name stands from `from` to `end`; a name that is too long is at fault.
#[tactic(auto, unfolding(crate::specs::Token::name_token))]
fn named(kind: usize, start: usize, from: usize, end: usize) -> Lexeme
    requires { from ≤ end }
    ensures { as_token result ≡ name_token kind start from end }
{
    if end - from <= Script::NAME {
        Lexeme { kind, start, end }
    } else {
        Lexeme {
            kind: Token::FAULT,
            start,
            end,
        }
    }
}

// The kind of the name of n bytes that begins with a letter at i: a reserved word's place in the table, or a name's kind.
// Most names have theirs for their length, which no reserved word has, or for their first byte.
fn word_kind(text: &[u8], i: usize, n: usize) -> usize
    requires { (letter (get_or text.now i 0) ≡ true) × (n ≡ length (name_at text.now i)) }
    ensures { result ≡ symbol (name_at text.now i) }
{
    if n < 3 {
        return Token::NAME;
    }
    if 6 < n {
        return Token::NAME;
    }
    let k = first_word(byte_at(text, i));
    if k <= Token::CATCH {
        return word_from(part(text, i, n), k);
    }
    k
}

// A letter stands at i.
#[tactic(auto, using(crate::proofs::Names::name_long), unfolding(crate::specs::Token::word_at))]
fn word_at(text: &[u8], i: usize) -> Lexeme
    requires { letter (get_or text.now i 0) ≡ true }
    ensures { as_token result ≡ word_at text.now i }
{
    let e = name_end(text, i);
    let k = word_kind(text, i, e - i);
    named(k, i, i, e)
}

// An apostrophe stands at i.
#[tactic(auto, unfolding(crate::specs::Token::label_at))]
fn label_at(text: &[u8], i: usize) -> Lexeme
    requires { i < length text.now }
    ensures { as_token result ≡ label_at text.now i }
{
    let j = i + 1;
    if is_letter(byte_at(text, j)) {
        let e = name_end(text, j);
        return named(Token::LABEL, i, j, e);
    }
    Lexeme {
        kind: Token::FAULT,
        start: i,
        end: j,
    }
}

// The mark that a byte and the one after it begin with, "the longest mark wins"; a name's kind where they begin with none.
// Marks are told by their bytes, which is quicker than a search.
fn mark_kind(b: u8, next: u8) -> usize
    ensures { result ≡ cond (ltb (symbol (b ∷ next ∷ [])) 14) (symbol (b ∷ next ∷ [])) (symbol (b ∷ [])) }
{
    match b {
        b'(' => Token::ROUND_OPEN,
        b')' => Token::ROUND_CLOSE,
        b'[' => Token::SQUARE_OPEN,
        b']' => Token::SQUARE_CLOSE,
        b'{' => Token::BRACE_OPEN,
        b'}' => Token::BRACE_CLOSE,
        b':' => Token::COLON,
        b',' => Token::COMMA,
        b';' => Token::SEMICOLON,
        b'|' => Token::BAR,
        b'1' => Token::ONE,
        b'*' => Token::STAR,
        b'@' => Token::AT,
        b'+' => Token::PLUS,
        b'&' => Token::WITH,
        b'=' => if next == b'>' {
            Token::THEN
        } else {
            Token::EQUALS
        },
        b'-' => if next == b'o' {
            Token::LOLLI
        } else {
            Token::NAME
        },
        b'<' => if next == b'-' {
            Token::FROM
        } else {
            Token::NAME
        },
        _ => Token::NAME,
    }
}

// Another byte stands at i: a mark of two bytes, else of one, else no token.
fn mark_at(text: &[u8], i: usize) -> Lexeme
    requires { i < length text.now }
    ensures { as_token result ≡ mark_at text.now i }
{
    let k = mark_kind(text[i], byte_at(text, i + 1));
    if k < Token::ROUND_OPEN {
        return Lexeme {
            kind: k,
            start: i,
            end: i + 2,
        };
    }
    if k < Token::NAME {
        return Lexeme {
            kind: k,
            start: i,
            end: i + 1,
        };
    }
    Lexeme {
        kind: Token::FAULT,
        start: i,
        end: i + 1,
    }
}

#[tactic(auto, unfolding(crate::specs::Token::first_at))]
fn first_at(text: &[u8], i: usize) -> Lexeme
    requires { i < length text.now }
    ensures { as_token result ≡ first_at text.now i }
{
    let b = text[i];
    if is_letter(b) {
        return word_at(text, i);
    }
    if b == b'\'' {
        return label_at(text, i);
    }
    mark_at(text, i)
}

// The next token from `at` on, in any text.
pub fn next_lexeme(text: &[u8], at: usize) -> Lexeme
    ensures result_value { as_token result ≡ token_at text.now at }
    ensures onward { Onward text.now at (as_token result) }
{
    let i = skip(text, at);
    if i < text.len() {
        return first_at(text, i);
    }
    Lexeme {
        kind: Token::END,
        start: text.len(),
        end: text.len(),
    }
}

// An offset of a text that is read, in the sixteen bits of a token.
fn offset(i: usize) -> u16
    requires { i ≤ text_limit }
    ensures { result ≡ i }
{
    i as u16
}

// The next token from `at` on, in a text that is read.
pub fn next_token(text: &[u8], at: u16) -> Token
    requires { length text.now ≤ text_limit }
    ensures value { result ≡ token_at text.now at }
    ensures onward { Onward text.now at result }
{
    let t = next_lexeme(text, at as usize);
    Token {
        kind: t.kind,
        start: offset(t.start),
        end: offset(t.end),
    }
}
