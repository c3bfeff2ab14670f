// The labels that the recvs of a process leave out, by their numbers: in text order, a recv before those inside it. Nothing is at fault in the process, so the walk is that of its check.
ghost use Rattle.std.specs.Prelude.{◌≡◌};
ghost use Rattle.calculus.specs.Checking.{check};
ghost use Rattle.calculus.specs.Verdict.{fine};
ghost use Rattle.calculus.specs.Warnings.{missing};
ghost use Rattle.check_contexts.specs.Held.{HeldIn};
ghost use Rattle.read_tables.specs.Decode.{process_in};
ghost use Rattle.read_tables.specs.Program.{program_in};
ghost use Rattle.read_tables.specs.Roots.{ProcessIn, AlternativesIn, BranchesIn, branches_in};
ghost use Rattle.read_tables.specs.Whole.{Tables};
ghost use Rattle.check_types.specs.Sought.{Sought};
ghost use Rattle.check_terms.specs.Next.{context_in};
ghost use Rattle.check_processes.specs.Branches.{missing_inside};
ghost use Rattle.check_processes.specs.Nodes.{NodeIn};
ghost use Rattle.check_processes.specs.Turns.{TurnIn, HalfIn, verdict_at, half_verdict, verdict_after, missing_at, half_missing, missing_after};
ghost use Rattle.check_processes.specs.Missing.{missing_in, BranchesFine};

use crate::choices::labels_offered;
use crate::turns::{Part, Rest, Turn, check_turn};
use check_contexts::held::retype_end;
use check_types::acting::labelled;
use check_types::left_out::left_out;
use notation::reading::TermNode;
use notation::words::narrow;
use read_tables::access::branch;
use run_words::records::Held;
use std::ops::ControlFlow;

// What a search breaks with, a label that a recv leaves out: where the recv names its channel, and where the label's apostrophe stands in the type. Where a search goes on, all were passed over, and so many are still to be.
#[derive(Clone, Copy)]
pub struct Unmet {
    pub channel: usize,
    pub label: usize,
}

// The label k that the process at the pointer p leaves out, with what it holds.
#[cycle(missing_branches_missing_choice_missing_half_missing_label_missing_on)]
pub fn missing_label(
    text: &[u8],
    scratch: &[u32],
    h: Held,
    p: usize,
    k: usize,
) -> ControlFlow<Unmet, usize>
    requires { Tables text.now scratch.now × HeldIn text.now scratch.now h × ProcessIn text.now scratch.now p × (check (program_in text.now scratch.now) (context_in text.now scratch.now h) (process_in text.now scratch.now p) ≡ fine) }
    ensures { Sought (missing (program_in text.now scratch.now) (context_in text.now scratch.now h) (process_in text.now scratch.now p)) k (missing_in text.now result) }
{
    let t = check_turn(text, scratch, h, p);
    missing_on(text, scratch, t, k)
}

// From a turn on: its first half, and a turn for each term that follows.
#[cycle(missing_branches_missing_choice_missing_half_missing_label_missing_on)]
fn missing_on(text: &[u8], scratch: &[u32], first: Turn, k: usize) -> ControlFlow<Unmet, usize>
    requires { Tables text.now scratch.now × TurnIn text.now scratch.now first × (verdict_after text.now scratch.now first ≡ fine) }
    ensures { Sought (missing_after text.now scratch.now first) k (missing_in text.now result) }
{
    let mut t = first;
    let mut left = k;
    loop {
        left = missing_half(text, scratch, t.half, left)?;
        match t.rest {
            Rest::On(part) => t = check_turn(text, scratch, part.held, part.pointer),
            Rest::Choice(part, n) => {
                return missing_choice(text, scratch, part.held, part.pointer, n, left);
            }
            Rest::Done(_) => return ControlFlow::Continue(left),
        }
    }
}

// In the first half of a term, if it has halves.
#[cycle(missing_branches_missing_choice_missing_half_missing_label_missing_on)]
fn missing_half(
    text: &[u8],
    scratch: &[u32],
    half: Option<Part>,
    k: usize,
) -> ControlFlow<Unmet, usize>
    requires { Tables text.now scratch.now × HalfIn text.now scratch.now half × (half_verdict text.now scratch.now half ≡ fine) }
    ensures { Sought (half_missing text.now scratch.now half) k (missing_in text.now result) }
{
    match half {
        Some(part) => missing_label(text, scratch, part.held, part.pointer, k),
        None => ControlFlow::Continue(k),
    }
}

// `recv c ('l => P | ..)`, which is never refused here: what it leaves out itself, then what those in its branches do.
#[cycle(missing_branches_missing_choice_missing_half_missing_label_missing_on)]
fn missing_choice(
    text: &[u8],
    scratch: &[u32],
    h: Held,
    p: usize,
    n: TermNode,
    k: usize,
) -> ControlFlow<Unmet, usize>
    requires { Tables text.now scratch.now × HeldIn text.now scratch.now h × NodeIn text.now scratch.now p n × (n.kind ≡ 8) × (verdict_at text.now scratch.now h p ≡ fine) }
    ensures { Sought (missing_at text.now scratch.now h p) k (missing_in text.now result) }
{
    let Ok(t) = labels_offered(text, scratch, h, n) else {
        return ControlFlow::Continue(k);
    };
    match left_out(text, scratch, t.place, t.count, n.second, n.third, k) {
        ControlFlow::Break(label) => ControlFlow::Break(Unmet {
            channel: n.first,
            label,
        }),
        ControlFlow::Continue(left) => missing_branches(
            text, scratch, h, n.first, t.place, t.count, n.second, n.third, left,
        ),
    }
}

// In n branches before the place d, as written, for the labels of m alternatives before the place e: each goes on with the type of its label, which is never lacking here.
#[cycle(missing_branches_missing_choice_missing_half_missing_label_missing_on)]
fn missing_branches(
    text: &[u8],
    scratch: &[u32],
    h: Held,
    c: usize,
    e: usize,
    m: usize,
    d: usize,
    n: usize,
    k: usize,
) -> ControlFlow<Unmet, usize>
    requires tables { Tables text.now scratch.now × HeldIn text.now scratch.now h × AlternativesIn text.now scratch.now e m × BranchesIn text.now scratch.now d n }
    requires branches_fine { BranchesFine text.now scratch.now h c e m d n }
    ensures { Sought (missing_inside text.now scratch.now h c e m (branches_in text.now scratch.now d n)) k (missing_in text.now result) }
{
    let mut left = k;
    for i in 0..n {
        let b = branch(scratch, d - i);
        let Some(j) = labelled(text, scratch, b.at, e, m) else {
            return ControlFlow::Continue(left);
        };
        let held = retype_end(text, h, c, narrow(j));
        left = missing_label(text, scratch, held, b.number, left)?;
    }
    ControlFlow::Continue(left)
}
