// One term of a process, or its end: what is to be checked next, or the verdict. Nothing here calls itself.
ghost use Rattle.std.specs.Prelude.{◌≡◌, ◌≤◌};
ghost use Rattle.notation.specs.Limits.{process_term_limit};
ghost use Rattle.notation.specs.Refusals.{refuses};
ghost use Rattle.read_tables.specs.Roots.{ProcessIn};
ghost use Rattle.read_tables.specs.Whole.{Tables};
ghost use Rattle.check_contexts.specs.Held.{HeldIn};
ghost use Rattle.check_processes.specs.Nodes.{NodeIn};
ghost use Rattle.check_processes.specs.Turns.{done, goes_on, halved, ended_by, followed_by, Turned};

use crate::rules::{check_end, check_halves, receive_one, send_next};
use check_contexts::halves::{Half, divides, half_takes, keep, spawn_half};
use check_contexts::marks::ALL;
use check_terms::sends::cancel_next;
use notation::kinds;
use notation::reading::TermNode;
use notation::refusal::Refusal;
use notation::script::Script;
use notation::words::narrow;
use read_tables::access::term_node;
use run_words::records::Held;

// A process that is to be checked: what it holds, its pointer.
#[derive(Clone, Copy)]
pub struct Part {
    pub held: Held,
    pub pointer: usize,
}

// A process follows; or a choice, by its node too; or the verdict is given.
#[derive(Clone, Copy)]
pub enum Rest {
    On(Part),
    Choice(Part, TermNode),
    Done(Result<(), Refusal>),
}

// After one term: its first half is to be checked first, where it has halves; then the rest.
#[derive(Clone, Copy)]
pub struct Turn {
    pub half: Option<Part>,
    pub rest: Rest,
}

// The process at the pointer follows.
fn goes_on(held: Held, pointer: usize) -> Turn
    ensures { result ≡ goes_on held pointer }
{
    Turn {
        half: None,
        rest: Rest::On(Part { held, pointer }),
    }
}

fn done(v: Result<(), Refusal>) -> Turn
    ensures { result ≡ done v }
{
    Turn {
        half: None,
        rest: Rest::Done(v),
    }
}

// Two halves, one after the other.
fn halves(a: Held, first: usize, b: Held, second: usize) -> Turn
    ensures { result ≡ halved a first b second }
{
    Turn {
        half: Some(Part {
            held: a,
            pointer: first,
        }),
        rest: Rest::On(Part {
            held: b,
            pointer: second,
        }),
    }
}

fn refused(number: u32, at: usize) -> Turn
    ensures { result ≡ done (refuses number at) }
{
    done(Err(Refusal { number, at }))
}

// A term after which nothing follows.
fn ended(x: Result<(), u32>, at: usize) -> Turn
    ensures { result ≡ ended_by x at }
{
    match x {
        Ok(()) => done(Ok(())),
        Err(number) => refused(number, at),
    }
}

// The rest of a term that goes on.
fn after(x: Result<Held, u32>, at: usize, rest: usize) -> Turn
    ensures { result ≡ followed_by x at rest }
{
    match x {
        Ok(held) => goes_on(held, rest),
        Err(number) => refused(number, at),
    }
}

// An empty process: nothing may be left over.
fn check_empty(text: &[u8], scratch: &[u32], h: Held, p: usize) -> Turn
    requires { Tables text.now scratch.now × ProcessIn text.now scratch.now p × (process_term_limit ≤ p) }
    ensures { Turned text.now scratch.now h p result }
{
    if h.count == 0 {
        return done(Ok(()));
    }
    refused(Refusal::LEFT_OVER, p - Script::PROCESS_TERMS)
}

// A send or a cancel.
fn check_send(text: &[u8], scratch: &[u32], h: Held, p: usize, n: TermNode) -> Turn
    requires { Tables text.now scratch.now × HeldIn text.now scratch.now h × NodeIn text.now scratch.now p n × (n.kind ≤ 4) }
    ensures { Turned text.now scratch.now h p result }
{
    if n.kind == kinds::CANCEL {
        let x = cancel_next(text, scratch, h, n.first);
        return after(x, n.at, n.third);
    }
    let x = send_next(text, scratch, h, n);
    after(x, n.at, n.third)
}

// `fwd x c` and `call p (x, ..) [y, ..]`.
fn check_last(text: &[u8], scratch: &[u32], h: Held, p: usize, n: TermNode) -> Turn
    requires { Tables text.now scratch.now × HeldIn text.now scratch.now h × NodeIn text.now scratch.now p n × (9 ≤ n.kind) × (n.kind ≤ 10) }
    ensures { Turned text.now scratch.now h p result }
{
    ended(check_end(text, scratch, h, n), n.at)
}

// A receive: of a close or a channel, after which one process follows, or of labels, which have branches.
fn check_receive(text: &[u8], scratch: &[u32], h: Held, p: usize, n: TermNode) -> Turn
    requires { Tables text.now scratch.now × HeldIn text.now scratch.now h × NodeIn text.now scratch.now p n × (6 ≤ n.kind) × (n.kind ≤ 8) }
    ensures { Turned text.now scratch.now h p result }
{
    if n.kind == kinds::RECV_LABEL {
        let part = Part {
            held: h,
            pointer: p,
        };
        return Turn {
            half: None,
            rest: Rest::Choice(part, n),
        };
    }
    let x = receive_one(text, scratch, h, n);
    after(x, n.at, n.third)
}

// `x : A <- (P); Q`: P comes first, then Q follows.
fn check_spawn(text: &[u8], scratch: &[u32], h: Held, p: usize, n: TermNode) -> Turn
    requires { Tables text.now scratch.now × HeldIn text.now scratch.now h × NodeIn text.now scratch.now p n × (n.kind ≡ 5) }
    ensures { Turned text.now scratch.now h p result }
{
    let taken = half_takes(text, scratch, h, Half::OfSpawn(n.at, n.second), ALL);
    if let Err(number) = check_halves(text, scratch, h, n, taken) {
        return refused(number, n.at);
    }
    let name = narrow(n.at);
    let node = narrow(n.first);
    let a = spawn_half(h, taken, name, node, true, 0);
    let b = spawn_half(h, taken, name, node, false, 0);
    halves(a, n.second, b, n.third)
}

// `try (P) catch (Q)`: P comes first, then Q follows.
fn check_try(text: &[u8], scratch: &[u32], h: Held, p: usize, n: TermNode) -> Turn
    requires { Tables text.now scratch.now × HeldIn text.now scratch.now h × NodeIn text.now scratch.now p n × (12 ≤ n.kind) }
    ensures { Turned text.now scratch.now h p result }
{
    let first = half_takes(text, scratch, h, Half::OfTry(n.second), ALL);
    let second = half_takes(text, scratch, h, Half::OfTry(n.third), ALL);
    if !divides(h.count, first, second, true) {
        return refused(Refusal::LEFT_OVER, n.at);
    }
    let a = keep(h, first, true);
    let b = keep(h, second, true);
    halves(a, n.second, b, n.third)
}

// A term that ends its process; a raise, whose rest follows; or a try.
fn check_ending(text: &[u8], scratch: &[u32], h: Held, p: usize, n: TermNode) -> Turn
    requires { Tables text.now scratch.now × HeldIn text.now scratch.now h × NodeIn text.now scratch.now p n × (9 ≤ n.kind) }
    ensures { Turned text.now scratch.now h p result }
{
    if n.kind <= kinds::CALL {
        return check_last(text, scratch, h, p, n);
    }
    if n.kind == kinds::RAISE {
        return goes_on(h, n.third);
    }
    check_try(text, scratch, h, p, n)
}

// Which rule applies is decided by the term's kind.
fn check_term(text: &[u8], scratch: &[u32], h: Held, p: usize, n: TermNode) -> Turn
    requires { Tables text.now scratch.now × HeldIn text.now scratch.now h × NodeIn text.now scratch.now p n }
    ensures { Turned text.now scratch.now h p result }
{
    let kind = n.kind;
    match kind {
        0..=kinds::CANCEL => return check_send(text, scratch, h, p, n),
        kinds::SPAWN => return check_spawn(text, scratch, h, p, n),
        kinds::RECV_UNIT..=kinds::RECV_LABEL => return check_receive(text, scratch, h, p, n),
        kinds::FWD.. => return check_ending(text, scratch, h, p, n),
    }
}

// One term, or the end.
pub(crate) fn check_turn(text: &[u8], scratch: &[u32], h: Held, p: usize) -> Turn
    requires { Tables text.now scratch.now × HeldIn text.now scratch.now h × ProcessIn text.now scratch.now p }
    ensures { Turned text.now scratch.now h p result }
{
    if Script::PROCESS_TERMS <= p {
        return check_empty(text, scratch, h, p);
    }
    let n = term_node(scratch, p);
    check_term(text, scratch, h, p, n)
}
