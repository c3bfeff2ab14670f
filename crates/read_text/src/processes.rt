// The reading of processes: "A process holds branches and a branch holds a process". What follows a term is the next turn of
// a loop: calls go as deep as brackets are open.
ghost use Rattle.std.specs.Prelude.{◌<◌};
ghost use Rattle.notation.specs.declared.token.TermHead.TheVariants.{Recv, Try, Spawn};
ghost use Rattle.notation.specs.Limits.{process_term_limit, text_limit, type_term_limit};
ghost use Rattle.notation.specs.Tables.{more_terms};
ghost use Rattle.read_types.specs.Filling.{reached, Room};
ghost use Rattle.read_text.specs.Turns.{ProcessRead, TurnRead};
ghost use Rattle.read_text.specs.Processes.{TermRead, TermTurned, HandlerRead, NoLabel, OneRead, LabelsRead, BracketedRead, PartsTurned, BranchesRead};

use crate::payloads::{label_then, name_colon, payload_at, payload_node, payload_then};
use crate::store::put_term;
use crate::terms::{read_call, read_cancel, read_fwd, read_raise, read_send};
use crate::turns::{Turn, follow, pointer, pointer_within, put_before};
use notation::kinds;
use notation::reading::{Cursor, Tally, TermNode};
use notation::refusal::Refusal;
use notation::script::Script;
use notation::tables::BRANCHES_AT;
use notation::token::{Payload, TermHead, Token};
use read_types::steps::{expect, kind_at, misfit, opening, process_term, term_head};
use read_types::store::{pair_word, put_list};
use read_types::types::read_type;

// A process: a turn for each term.
#[cycle(read_bracketed_read_branches_read_handler_read_parts_read_process_read_recv_read_spawn_read_try_read_turn_receive_label_receive_one)]
pub(crate) fn read_process(
    text: &[u8],
    scratch: &mut [u32],
    c: &mut Cursor,
    k: &mut Tally,
) -> Result<(), Refusal>
    requires { Room text.now scratch.old c.old k.old }
    ensures { ProcessRead text.now scratch.old c.old k.old (reached result c.new k.new) scratch.new }
{
    loop {
        match read_turn(text, scratch, c, k)? {
            Turn::On => {}
            Turn::Done => return Ok(()),
        }
    }
}

// One term, by what begins it.
#[cycle(read_bracketed_read_branches_read_handler_read_parts_read_process_read_recv_read_spawn_read_try_read_turn_receive_label_receive_one)]
fn read_turn(
    text: &[u8],
    scratch: &mut [u32],
    c: &mut Cursor,
    k: &mut Tally,
) -> Result<Turn, Refusal>
    requires { Room text.now scratch.old c.old k.old }
    ensures { TurnRead text.now scratch.old c.old k.old result c.new k.new scratch.new }
{
    match term_head(kind_at(text, c.at)) {
        TermHead::Send => return read_send(text, scratch, c, k),
        TermHead::Recv => read_recv(text, scratch, c, k)?,
        TermHead::Fwd => read_fwd(text, scratch, c, k)?,
        TermHead::Call => read_call(text, scratch, c, k)?,
        TermHead::Cancel => return read_cancel(text, scratch, c, k),
        TermHead::Raise => return read_raise(text, scratch, c, k),
        TermHead::Try => read_try(text, scratch, c, k)?,
        TermHead::Spawn => return read_spawn(text, scratch, c, k),
        TermHead::Empty => {}
    }
    Ok(Turn::Done)
}

// A process in round brackets; as many are open afterwards as before.
#[cycle(read_bracketed_read_branches_read_handler_read_parts_read_process_read_recv_read_spawn_read_try_read_turn_receive_label_receive_one)]
fn read_bracketed(
    text: &[u8],
    scratch: &mut [u32],
    c: &mut Cursor,
    k: &mut Tally,
) -> Result<(), Refusal>
    requires { Room text.now scratch.old c.old k.old }
    ensures { BracketedRead text.now scratch.old c.old k.old (reached result c.new k.new) scratch.new }
{
    let depth = c.depth;
    opening(text, c, Token::ROUND_OPEN)?;
    read_process(text, scratch, c, k)?;
    expect(text, c, Token::ROUND_CLOSE)?;
    c.depth = depth;
    Ok(())
}

// recv c (..)
#[cycle(read_bracketed_read_branches_read_handler_read_parts_read_process_read_recv_read_spawn_read_try_read_turn_receive_label_receive_one)]
fn read_recv(text: &[u8], scratch: &mut [u32], c: &mut Cursor, k: &mut Tally) -> Result<(), Refusal>
    requires { Room text.now scratch.old c.old k.old }
    ensures { TermRead Recv text.now scratch.old c.old k.old (reached result c.new k.new) scratch.new }
{
    let at = process_term(text, c, Token::RECV)?;
    let i = expect(text, c, Token::NAME)?;
    let depth = c.depth;
    opening(text, c, Token::ROUND_OPEN)?;
    read_handler(text, scratch, c, k, at, i)?;
    expect(text, c, Token::ROUND_CLOSE)?;
    c.depth = depth;
    Ok(())
}

// What stands in a recv's bracket, by what it takes.
#[cycle(read_bracketed_read_branches_read_handler_read_parts_read_process_read_recv_read_spawn_read_try_read_turn_receive_label_receive_one)]
fn read_handler(
    text: &[u8],
    scratch: &mut [u32],
    c: &mut Cursor,
    k: &mut Tally,
    at: u16,
    i: u16,
) -> Result<(), Refusal>
    requires room { Room text.now scratch.old c.old (more_terms k.old) }
    requires at_lt_text_limit { (at < text_limit) × (i < text_limit) }
    ensures { HandlerRead at i text.now scratch.old c.old k.old (reached result c.new k.new) scratch.new }
{
    let head = payload_at(text, c.at);
    match head {
        Payload::Unit => receive_one(text, scratch, c, k, at, i, head),
        Payload::Channel => receive_one(text, scratch, c, k, at, i, head),
        Payload::Label => receive_label(text, scratch, c, k, at, i),
        Payload::Other => Err(misfit(text, c.at)),
    }
}

// () or a name, => and a process.
#[cycle(read_bracketed_read_branches_read_handler_read_parts_read_process_read_recv_read_spawn_read_try_read_turn_receive_label_receive_one)]
fn receive_one(
    text: &[u8],
    scratch: &mut [u32],
    c: &mut Cursor,
    k: &mut Tally,
    at: u16,
    i: u16,
    head: Payload,
) -> Result<(), Refusal>
    requires room { Room text.now scratch.old c.old (more_terms k.old) }
    requires at_lt_text_limit { (at < text_limit) × (i < text_limit) × NoLabel head }
    ensures { OneRead at i head text.now scratch.old c.old k.old (reached result c.new k.new) scratch.new }
{
    let j = payload_then(text, c, head)?;
    let term = k.terms;
    k.terms += 1;
    let n = payload_node(kinds::RECV_UNIT, at, i, j, head);
    put_before(text, scratch, c.at, k.terms, term, n);
    read_process(text, scratch, c, k)
}

// A branch for each label; the node is put once the list is.
#[cycle(read_bracketed_read_branches_read_handler_read_parts_read_process_read_recv_read_spawn_read_try_read_turn_receive_label_receive_one)]
fn receive_label(
    text: &[u8],
    scratch: &mut [u32],
    c: &mut Cursor,
    k: &mut Tally,
    at: u16,
    i: u16,
) -> Result<(), Refusal>
    requires room { Room text.now scratch.old c.old (more_terms k.old) }
    requires at_lt_text_limit { (at < text_limit) × (i < text_limit) }
    ensures { LabelsRead at i text.now scratch.old c.old k.old (reached result c.new k.new) scratch.new }
{
    let term = k.terms;
    k.terms += 1;
    read_branches(text, scratch, c, k)?;
    let n = TermNode {
        kind: kinds::RECV_LABEL,
        at: at as usize,
        first: i as usize,
        second: k.branches,
        third: k.last,
    };
    put_term(scratch, term, n);
    Ok(())
}

// The branches of a recv; each one's word is kept until the list ends.
#[cycle(read_bracketed_read_branches_read_handler_read_parts_read_process_read_recv_read_spawn_read_try_read_turn_receive_label_receive_one)]
fn read_branches(
    text: &[u8],
    scratch: &mut [u32],
    c: &mut Cursor,
    k: &mut Tally,
) -> Result<(), Refusal>
    requires { Room text.now scratch.old c.old k.old }
    ensures { BranchesRead text.now scratch.old c.old k.old (reached result c.new k.new) scratch.new }
{
    let mut n: usize = 0;
    let mut kept: [u32; Script::LABELS] = [0; Script::LABELS];
    loop {
        let i = label_then(text, c, n)?;
        let p = pointer(text, c.at, k.terms);
        read_process(text, scratch, c, k)?;
        kept[n] = pair_word(i, p);
        n += 1;
        if kind_at(text, c.at) == Token::BAR {
            expect(text, c, Token::BAR)?;
        } else {
            put_list(scratch, &kept, n, BRANCHES_AT + k.branches);
            k.branches += n;
            k.last = n;
            return Ok(());
        }
    }
}

// try (P) catch (Q); the node is put between its halves.
#[cycle(read_bracketed_read_branches_read_handler_read_parts_read_process_read_recv_read_spawn_read_try_read_turn_receive_label_receive_one)]
fn read_try(text: &[u8], scratch: &mut [u32], c: &mut Cursor, k: &mut Tally) -> Result<(), Refusal>
    requires { Room text.now scratch.old c.old k.old }
    ensures { TermRead Try text.now scratch.old c.old k.old (reached result c.new k.new) scratch.new }
{
    let at = process_term(text, c, Token::TRY)?;
    let term = k.terms;
    k.terms += 1;
    let second = pointer_within(text, c.at, k.terms);
    read_bracketed(text, scratch, c, k)?;
    expect(text, c, Token::CATCH)?;
    let third = pointer_within(text, c.at, k.terms);
    let n = TermNode {
        kind: kinds::TRY,
        at: at as usize,
        first: 0,
        second,
        third,
    };
    put_term(scratch, term, n);
    read_bracketed(text, scratch, c, k)
}

// x : A <- (P); Q
#[cycle(read_bracketed_read_branches_read_handler_read_parts_read_process_read_recv_read_spawn_read_try_read_turn_receive_label_receive_one)]
fn read_spawn(
    text: &[u8],
    scratch: &mut [u32],
    c: &mut Cursor,
    k: &mut Tally,
) -> Result<Turn, Refusal>
    requires { Room text.now scratch.old c.old k.old }
    ensures { TermTurned Spawn text.now scratch.old c.old k.old result c.new k.new scratch.new }
{
    let at = name_colon(text, c)?;
    let term = k.terms;
    k.terms += 1;
    read_type(text, scratch, c, k)?;
    expect(text, c, Token::FROM)?;
    read_parts(text, scratch, c, k, term, at)
}

// The two halves of a spawn, the term i, whose name stands at `at` and whose type's node was read last.
#[cycle(read_bracketed_read_branches_read_handler_read_parts_read_process_read_recv_read_spawn_read_try_read_turn_receive_label_receive_one)]
fn read_parts(
    text: &[u8],
    scratch: &mut [u32],
    c: &mut Cursor,
    k: &mut Tally,
    i: usize,
    at: u16,
) -> Result<Turn, Refusal>
    requires room { Room text.now scratch.old c.old k.old × (i < process_term_limit) }
    requires last_lt_type_term_limit { (k.old.last < type_term_limit) × (at < text_limit) }
    ensures { PartsTurned i at text.now scratch.old c.old k.old result c.new k.new scratch.new }
{
    let second = pointer_within(text, c.at, k.terms);
    let first = k.last;
    read_bracketed(text, scratch, c, k)?;
    let n = TermNode {
        kind: kinds::SPAWN,
        at: at as usize,
        first,
        second,
        third: 0,
    };
    follow(text, scratch, c, k, i, n)
}
