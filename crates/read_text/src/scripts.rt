// The reading of declarations and of the script.
ghost use Rattle.std.specs.Prelude.{◌≡◌, ◌<◌, ◌≤◌, length};
ghost use Rattle.notation.specs.Limits.{text_limit};
ghost use Rattle.notation.specs.Onward.{width};
ghost use Rattle.notation.specs.Scripts.{keyword, declaration_head};
ghost use Rattle.notation.specs.declared.token.DeclarationHead.TheVariants.{TypeWord, ProcWord, ExecWord};
ghost use Rattle.read_types.specs.Filling.{taken, reached, Stepped, Room};
ghost use Rattle.read_text.specs.Scripts.{declared_name, DeclarationRead, ScriptRead, Counted};

use crate::processes::read_process;
use crate::signatures::entry_list;
use crate::store::{put_exec, put_process, put_type};
use crate::turns::pointer;
use notation::reading::{Cursor, ProcessEntry, Tally};
use notation::refusal::Refusal;
use notation::script::Script;
use notation::token::{DeclarationHead, Token};
use read_types::steps::{expect, kind_at, misfit, within_limit};
use read_types::types::read_type;

// The keyword of a declaration of whose kind `before` came before.
fn keyword(
    text: &[u8],
    c: &mut Cursor,
    kind: usize,
    before: usize,
    limit: usize,
) -> Result<u16, Refusal>
    requires { (length text.now ≤ text_limit) × (kind ≤ 31) }
    ensures { Stepped text.now c.old (width kind) 0 0 (keyword text.now kind before limit c.old) (taken result c.new) }
{
    let i = expect(text, c, kind)?;
    within_limit(i, before, limit)?;
    Ok(i)
}

// The keyword, and the name that is declared.
#[tactic(auto, unfolding(crate::specs::Scripts::declared_name))]
fn declared_name(
    text: &[u8],
    c: &mut Cursor,
    kind: usize,
    before: usize,
    limit: usize,
) -> Result<u16, Refusal>
    requires { (length text.now ≤ text_limit) × (kind ≤ 31) }
    ensures { Stepped text.now c.old 2 0 0 (declared_name text.now kind before limit c.old) (taken result c.new) }
{
    keyword(text, c, kind, before, limit)?;
    expect(text, c, Token::NAME)
}

// type t = A
fn declare_type(
    text: &[u8],
    scratch: &mut [u32],
    c: &mut Cursor,
    k: &mut Tally,
) -> Result<(), Refusal>
    requires { Room text.now scratch.old c.old k.old }
    ensures { DeclarationRead TypeWord text.now scratch.old c.old k.old (reached result c.new k.new) scratch.new }
{
    let i = declared_name(text, c, Token::TYPE, k.types, Script::TYPES)?;
    expect(text, c, Token::EQUALS)?;
    read_type(text, scratch, c, k)?;
    let node = k.last;
    put_type(scratch, k, i, node);
    Ok(())
}

// proc p (x : A, ..) [y : B, ..] = P
fn declare_proc(
    text: &[u8],
    scratch: &mut [u32],
    c: &mut Cursor,
    k: &mut Tally,
) -> Result<(), Refusal>
    requires { Room text.now scratch.old c.old k.old }
    ensures { DeclarationRead ProcWord text.now scratch.old c.old k.old (reached result c.new k.new) scratch.new }
{
    let i = declared_name(text, c, Token::PROC, k.processes, Script::PROCESSES)?;
    let first = k.entries;
    entry_list(text, scratch, c, k, Token::ROUND_OPEN, Token::ROUND_CLOSE)?;
    let uses = k.entries;
    entry_list(text, scratch, c, k, Token::SQUARE_OPEN, Token::SQUARE_CLOSE)?;
    let end = k.entries;
    expect(text, c, Token::EQUALS)?;
    let body = pointer(text, c.at, k.terms);
    read_process(text, scratch, c, k)?;
    let p = ProcessEntry {
        at: i as usize,
        first,
        provided: uses - first,
        used: end - uses,
        body,
    };
    put_process(scratch, k, p);
    Ok(())
}

// exec p
fn declare_exec(
    text: &[u8],
    scratch: &mut [u32],
    c: &mut Cursor,
    k: &mut Tally,
) -> Result<(), Refusal>
    requires { Room text.now scratch.old c.old k.old }
    ensures { DeclarationRead ExecWord text.now scratch.old c.old k.old (reached result c.new k.new) scratch.new }
{
    let i = declared_name(text, c, Token::EXEC, k.execs, Script::EXECS)?;
    put_exec(scratch, k, i);
    Ok(())
}

// What a token of this kind begins where a declaration may stand.
#[tactic(auto, unfolding(notation::specs::Scripts::declaration_head))]
fn declaration_head(kind: usize) -> DeclarationHead
    ensures { result ≡ declaration_head kind }
{
    match kind {
        Token::TYPE => DeclarationHead::TypeWord,
        Token::PROC => DeclarationHead::ProcWord,
        Token::EXEC => DeclarationHead::ExecWord,
        Token::END => DeclarationHead::End,
        _ => DeclarationHead::Other,
    }
}

// A declaration, by what begins it; the end of the text is never handed here.
fn declare(
    text: &[u8],
    scratch: &mut [u32],
    c: &mut Cursor,
    k: &mut Tally,
    head: DeclarationHead,
) -> Result<(), Refusal>
    requires { Room text.now scratch.old c.old k.old }
    ensures { DeclarationRead head text.now scratch.old c.old k.old (reached result c.new k.new) scratch.new }
{
    match head {
        DeclarationHead::TypeWord => declare_type(text, scratch, c, k),
        DeclarationHead::ProcWord => declare_proc(text, scratch, c, k),
        DeclarationHead::ExecWord => declare_exec(text, scratch, c, k),
        DeclarationHead::End => Err(misfit(text, c.at)),
        DeclarationHead::Other => Err(misfit(text, c.at)),
    }
}

// Declarations, none or more, up to the end of the text.
pub(crate) fn read_script(
    text: &[u8],
    scratch: &mut [u32],
    c: &mut Cursor,
    k: &mut Tally,
) -> Result<(), Refusal>
    requires { Room text.now scratch.old c.old k.old × Counted k.old }
    ensures { ScriptRead text.now scratch.old c.old k.old (reached result c.new k.new) scratch.new }
{
    loop {
        let kind = kind_at(text, c.at);
        if kind == Token::END {
            return Ok(());
        }
        declare(text, scratch, c, k, declaration_head(kind))?;
    }
}
