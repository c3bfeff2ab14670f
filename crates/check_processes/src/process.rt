// The check of a process: the first term in text order that is at fault, then the lowest number.
ghost use Rattle.std.specs.Prelude.{◌≡◌};
ghost use Rattle.notation.specs.Token.{name_at};
ghost use Rattle.notation.specs.Tree.{plains};
ghost use Rattle.calculus.specs.Checking.{check, check_branches};
ghost use Rattle.check_contexts.specs.Held.{HeldIn};
ghost use Rattle.calculus.specs.Verdict.{verdict_of};
ghost use Rattle.read_tables.specs.Decode.{process_in};
ghost use Rattle.read_tables.specs.Program.{program_in};
ghost use Rattle.read_tables.specs.Roots.{ProcessIn, AlternativesIn, alternatives_in, BranchesIn, branches_in};
ghost use Rattle.read_tables.specs.Whole.{Tables};
ghost use Rattle.check_terms.specs.Next.{context_in};
ghost use Rattle.check_processes.specs.Nodes.{NodeIn};
ghost use Rattle.check_processes.specs.Turns.{TurnIn, HalfIn, half_verdict, verdict_after};

use crate::choices::labels_offered;
use crate::turns::{Part, Rest, Turn, check_turn};
use check_contexts::held::retype_end;
use check_types::acting::labelled;
use notation::reading::TermNode;
use notation::refusal::Refusal;
use notation::words::narrow;
use read_tables::access::branch;
use run_words::records::Held;

// The process at the pointer p, with what it holds: nothing is at fault, or a refusal.
#[cycle(check_branches_check_choice_check_half_check_on_check_process)]
pub fn check_process(text: &[u8], scratch: &[u32], h: Held, p: usize) -> Result<(), Refusal>
    requires { Tables text.now scratch.now × HeldIn text.now scratch.now h × ProcessIn text.now scratch.now p }
    ensures { verdict_of result ≡ check (program_in text.now scratch.now) (context_in text.now scratch.now h) (process_in text.now scratch.now p) }
{
    let t = check_turn(text, scratch, h, p);
    check_on(text, scratch, t)
}

// From a turn on: its first half, and a turn for each term that follows.
#[cycle(check_branches_check_choice_check_half_check_on_check_process)]
fn check_on(text: &[u8], scratch: &[u32], first: Turn) -> Result<(), Refusal>
    requires { Tables text.now scratch.now × TurnIn text.now scratch.now first }
    ensures { verdict_of result ≡ verdict_after text.now scratch.now first }
{
    let mut t = first;
    loop {
        check_half(text, scratch, t.half)?;
        match t.rest {
            Rest::On(part) => t = check_turn(text, scratch, part.held, part.pointer),
            Rest::Choice(part, n) => {
                return check_choice(text, scratch, part.held, part.pointer, n);
            }
            Rest::Done(v) => return v,
        }
    }
}

// The first half of a term, if it has halves.
#[cycle(check_branches_check_choice_check_half_check_on_check_process)]
fn check_half(text: &[u8], scratch: &[u32], half: Option<Part>) -> Result<(), Refusal>
    requires { Tables text.now scratch.now × HalfIn text.now scratch.now half }
    ensures { verdict_of result ≡ half_verdict text.now scratch.now half }
{
    match half {
        Some(part) => check_process(text, scratch, part.held, part.pointer),
        None => Ok(()),
    }
}

// `recv c ('l => P | ..)`.
#[cycle(check_branches_check_choice_check_half_check_on_check_process)]
fn check_choice(text: &[u8], scratch: &[u32], h: Held, p: usize, n: TermNode) -> Result<(), Refusal>
    requires { Tables text.now scratch.now × HeldIn text.now scratch.now h × NodeIn text.now scratch.now p n × (n.kind ≡ 8) }
    ensures { verdict_of result ≡ check (program_in text.now scratch.now) (context_in text.now scratch.now h) (process_in text.now scratch.now p) }
{
    match labels_offered(text, scratch, h, n) {
        Ok(t) => check_branches(
            text, scratch, h, n.at, n.first, t.place, t.count, n.second, n.third,
        ),
        Err(number) => Err(Refusal { number, at: n.at }),
    }
}

// k branches before the place d, as written, for the labels of m alternatives before the place e: each goes on with the type of its label.
#[cycle(check_branches_check_choice_check_half_check_on_check_process)]
fn check_branches(
    text: &[u8],
    scratch: &[u32],
    h: Held,
    at: usize,
    c: usize,
    e: usize,
    m: usize,
    d: usize,
    k: usize,
) -> Result<(), Refusal>
    requires { Tables text.now scratch.now × HeldIn text.now scratch.now h × AlternativesIn text.now scratch.now e m × BranchesIn text.now scratch.now d k }
    ensures { verdict_of result ≡ check_branches (program_in text.now scratch.now) (context_in text.now scratch.now h) at (name_at text.now c) (plains (alternatives_in text.now scratch.now e m)) (branches_in text.now scratch.now d k) }
{
    for i in 0..k {
        let b = branch(scratch, d - i);
        let Some(j) = labelled(text, scratch, b.at, e, m) else {
            return Err(Refusal {
                number: Refusal::NO_LABEL,
                at,
            });
        };
        let held = retype_end(text, h, c, narrow(j));
        check_process(text, scratch, held, b.number)?;
    }
    Ok(())
}
