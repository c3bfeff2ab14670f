// What goes over a channel, and what becomes of its type and of the sender's channels.
ghost use Rattle.std.specs.Prelude.{◌≡◌, ◌+◌, ◌≤◌, ◌<◌};
ghost use Rattle.notation.specs.Token.{name_at};
ghost use Rattle.notation.specs.Tables.{Area};
ghost use Rattle.calculus.specs.Types.{unfolded, passing, choosing};
ghost use Rattle.calculus.specs.Steps.{after_passing, after_choosing, after_message, passed_type};
ghost use Rattle.read_tables.specs.Program.{plain_in, program_in};
ghost use Rattle.read_tables.specs.Roots.{TypeIn, ProcessIn};
ghost use Rattle.read_tables.specs.Whole.{Tables};
ghost use Rattle.run_words.specs.Raw.{folding_kind};
ghost use Rattle.check_contexts.specs.Held.{HeldIn};
ghost use Rattle.run_messages.specs.Kinds.{send_label_kind, send_unit_kind};
ghost use Rattle.run_alone.specs.Run.{RunOf, doing_as};
ghost use Rattle.run_messages.specs.Messages.{message, TypeAfter, MovesOn, SentHeld, RunsTerm, TurnOn};
ghost use Rattle.run_messages.specs.Parties.{FarAt, PartyAt};

use check_contexts::held::{drop_end, position_named, retype_at};
use check_types::acting::{choosing, labelled, passing, standing};
use notation::kinds::{SEND_CHANNEL, SEND_LABEL, SEND_UNIT};
use notation::reading::TermNode;
use notation::script::Script;
use notation::token::names_equal;
use read_tables::access::term_node;
use run_words::held::end_at;
use run_words::processes::load;
use run_words::records::{End, Held, Process, RUNNING};

// A send under way: the process at a place before it and after it, its term, and the end that it goes over.
#[derive(Clone, Copy)]
pub struct Sending {
    pub place: usize,
    pub before: Process,
    pub after: Process,
    pub term: TermNode,
    pub over: End,
}

// A process whose term acts on a channel: its place, where its name for the channel stands, and its term.
#[derive(Clone, Copy)]
pub struct Party {
    pub place: usize,
    pub process: Process,
    pub name: usize,
    pub term: TermNode,
}

// The type of a channel of the type i, once a channel was passed over it.
fn after_passing(text: &[u8], scratch: &[u32], i: usize) -> usize
    requires tables { Tables text.now scratch.now }
    requires type_in { TypeIn text.now scratch.now i }
    ensures { TypeAfter text.now scratch.now (after_passing (plain_in text.now scratch.now i) (passing (unfolded (program_in text.now scratch.now).types (plain_in text.now scratch.now i)))) result }
{
    let j = standing(text, scratch, i);
    match passing(scratch, j) {
        Some(p) => p.after,
        None => i,
    }
}

// The same for the label at `at`.
fn after_choosing(text: &[u8], scratch: &[u32], at: usize, i: usize) -> usize
    requires tables { Tables text.now scratch.now }
    requires type_in { TypeIn text.now scratch.now i }
    ensures { TypeAfter text.now scratch.now (after_choosing (plain_in text.now scratch.now i) (name_at text.now (at + 1)) (choosing (unfolded (program_in text.now scratch.now).types (plain_in text.now scratch.now i)))) result }
{
    let j = standing(text, scratch, i);
    let Some(c) = choosing(scratch, j) else {
        return i;
    };
    labelled(text, scratch, at, c.place, c.count).unwrap_or(i)
}

// The type of a channel of the type i, once the message of the send n has gone over it.
pub(crate) fn after_message(text: &[u8], scratch: &[u32], n: TermNode, i: usize) -> usize
    requires tables { Tables text.now scratch.now }
    requires type_in { TypeIn text.now scratch.now i }
    requires send_unit_kind_le_kind { (send_unit_kind ≤ n.kind) × (n.kind ≤ send_label_kind) }
    ensures { TypeAfter text.now scratch.now (after_message (program_in text.now scratch.now) (message text.now n) (plain_in text.now scratch.now i)) result }
{
    match n.kind {
        SEND_UNIT => i,
        SEND_CHANNEL => after_passing(text, scratch, i),
        _ => after_choosing(text, scratch, n.second, i),
    }
}

// The type of an end of the type j that has come over a channel of the type i.
pub(crate) fn came_over(text: &[u8], scratch: &[u32], i: usize, j: usize) -> usize
    requires tables { Tables text.now scratch.now }
    requires type_in { TypeIn text.now scratch.now i × TypeIn text.now scratch.now j }
    ensures { TypeAfter text.now scratch.now (passed_type (plain_in text.now scratch.now j) (passing (unfolded (program_in text.now scratch.now).types (plain_in text.now scratch.now i)))) result }
{
    let k = standing(text, scratch, i);
    match passing(scratch, k) {
        Some(p) => p.what,
        None => j,
    }
}

// What is held once the message of the send n has gone over the channel whose name is the one at `at`: it moves on from its own type.
pub(crate) fn move_on(text: &[u8], scratch: &[u32], h: Held, n: TermNode, at: usize) -> Held
    requires tables { Tables text.now scratch.now }
    requires held_in { HeldIn text.now scratch.now h }
    requires send_unit_kind_le_kind { (send_unit_kind ≤ n.kind) × (n.kind ≤ send_label_kind) }
    ensures { MovesOn text.now scratch.now h n at result }
{
    let Some(k) = position_named(text, h, at) else {
        return h;
    };
    let e = end_at(h, k);
    let node = after_message(text, scratch, n, e.node as usize);
    retype_at(h, k, node as u32)
}

// What the sender holds after the send n.
pub(crate) fn after_send(text: &[u8], scratch: &[u32], h: Held, n: TermNode) -> Held
    requires tables { Tables text.now scratch.now }
    requires held_in { HeldIn text.now scratch.now h }
    requires send_unit_kind_le_kind { (send_unit_kind ≤ n.kind) × (n.kind ≤ send_label_kind) }
    ensures { SentHeld text.now scratch.now h n result }
{
    match n.kind {
        SEND_UNIT => drop_end(text, h, n.first),
        SEND_LABEL => move_on(text, scratch, h, n, n.first),
        _ => {
            let kept = drop_end(text, h, n.second);
            move_on(text, scratch, kept, n, n.first)
        }
    }
}

// The node of the term that a process runs, if it runs one.
pub fn running_term(scratch: &[u32], kind: u32, pointer: u32) -> Option<TermNode>
    requires { Area scratch.now }
    ensures { RunsTerm scratch.now kind pointer result }
{
    if kind != RUNNING {
        return None;
    }
    let p = pointer as usize;
    if Script::PROCESS_TERMS <= p {
        return None;
    }
    Some(term_node(scratch, p))
}

// The same, if the term acts on the channel whose name is the one at `x`.
pub fn turn_on(text: &[u8], scratch: &[u32], kind: u32, pointer: u32, x: usize) -> Option<TermNode>
    requires tables { Tables text.now scratch.now }
    requires process_in { (kind ≡ folding_kind → ⊥) → ProcessIn text.now scratch.now pointer }
    ensures { TurnOn text.now scratch.now x (doing_as text.now scratch.now kind pointer) result }
{
    let n = running_term(scratch, kind, pointer)?;
    names_equal(text, n.first, x).then_some(n)
}

// The process at place j, if its term acts on the channel at position k of what it holds.
pub fn party_at(text: &[u8], scratch: &[u32], run: &[u32], j: usize, k: usize) -> Option<Party>
    requires run_of { RunOf text.now scratch.now run.now }
    requires far_at { FarAt text.now scratch.now run.now j k }
    ensures { PartyAt text.now scratch.now run.now j k result }
{
    let process = load(run, j);
    let y = end_at(process.held, k);
    let name = y.name as usize;
    let term = turn_on(text, scratch, process.kind, process.pointer, name)?;
    Some(Party {
        place: j,
        process,
        name,
        term,
    })
}
