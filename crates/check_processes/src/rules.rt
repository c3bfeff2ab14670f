// What the rules ask of one term, by the kind of its node.
ghost use Rattle.std.specs.Prelude.{◌≡◌, ℕ, ◌<◌, ◌≤◌};
ghost use Rattle.notation.specs.Limits.{text_limit};
ghost use Rattle.check_contexts.specs.Halves.{Takes};
ghost use Rattle.check_contexts.specs.Held.{HeldIn};
ghost use Rattle.check_contexts.specs.Marks.{ALL};
ghost use Rattle.check_contexts.specs.declared.halves.Half.TheVariants.{OfSpawn};
ghost use Rattle.read_tables.specs.Program.{program_in};
ghost use Rattle.read_tables.specs.Decode.{arguments_at};
ghost use Rattle.read_tables.specs.Names.{CallAt};
ghost use Rattle.read_tables.specs.Roots.{ProcessIn};
ghost use Rattle.read_tables.specs.Whole.{Tables};
ghost use Rattle.check_terms.specs.Next.{context_in, Goes};
ghost use Rattle.check_terms.specs.Endings.{answer_of};
ghost use Rattle.check_processes.specs.Nodes.{send_step, receive_step, end_step, spawn_step};

use check_contexts::halves::{Half, divides, half_takes, keep};
use check_contexts::marks::Marks;
use check_terms::calls::check_call;
use check_terms::forwards::check_forward;
use check_terms::sends::{choose_next, close_next, is_new, pass_next, receive_next};
use notation::kinds;
use notation::reading::TermNode;
use notation::refusal::Refusal;
use notation::script::Script;
use run_words::records::{Held, PROVIDED, USED};

// A send: what is held after it, or the refusal's number.
pub(crate) fn send_next(text: &[u8], scratch: &[u32], h: Held, n: TermNode) -> Result<Held, u32>
    requires { Tables text.now scratch.now × HeldIn text.now scratch.now h }
    ensures { Goes text.now scratch.now result (send_step text.now scratch.now n (context_in text.now scratch.now h)) }
{
    if n.kind == kinds::SEND_UNIT {
        return close_next(text, scratch, h, n.first, PROVIDED);
    }
    if n.kind == kinds::SEND_CHANNEL {
        return pass_next(text, scratch, h, n.first, n.second);
    }
    choose_next(text, scratch, h, n.first, n.second)
}

// A receive of a close or of a channel.
pub(crate) fn receive_one(text: &[u8], scratch: &[u32], h: Held, n: TermNode) -> Result<Held, u32>
    requires { Tables text.now scratch.now × HeldIn text.now scratch.now h × (n.kind ≡ 7 → n.second < text_limit) × (6 ≤ n.kind) × (n.kind ≤ 7) }
    ensures { Goes text.now scratch.now result (receive_step text.now scratch.now n (context_in text.now scratch.now h)) }
{
    if n.kind == kinds::RECV_UNIT {
        return close_next(text, scratch, h, n.first, USED);
    }
    receive_next(text, scratch, h, n.first, n.second)
}

// A term that ends its process: what the rule refuses, by its number.
pub(crate) fn check_end(text: &[u8], scratch: &[u32], h: Held, n: TermNode) -> Result<(), u32>
    requires tables { Tables text.now scratch.now × HeldIn text.now scratch.now h }
    requires call_at { (n.kind ≡ 9 → ⊥) → CallAt text.now n.second (arguments_at text.now n.second).0 (arguments_at text.now n.second).1 }
    ensures { result ≡ answer_of (end_step text.now scratch.now n (context_in text.now scratch.now h)) }
{
    if n.kind == kinds::FWD {
        return check_forward(text, scratch, h, n.first, n.second);
    }
    check_call(text, scratch, h, n.first, n.second)
}

// A spawn's halves may be divided so, the first of which takes what is marked, and its new name joins both; or what the rule refuses, by its number.
pub(crate) fn check_halves(
    text: &[u8],
    scratch: &[u32],
    h: Held,
    n: TermNode,
    taken: Marks,
) -> Result<(), u32>
    requires tables { Tables text.now scratch.now × HeldIn text.now scratch.now h × ProcessIn text.now scratch.now n.third }
    requires takes { Takes text.now scratch.now h (OfSpawn n.at n.second) ALL taken }
    ensures { result ≡ answer_of (spawn_step text.now scratch.now n (context_in text.now scratch.now h)) }
{
    let shared = half_takes(text, scratch, h, Half::OfSpawn(n.at, n.third), taken);
    if !divides(h.count, taken, shared, false) {
        return Err(Refusal::LEFT_OVER);
    }
    if !is_new(text, h, n.at) {
        return Err(Refusal::NO_ROOM);
    }
    let a = keep(h, taken, true);
    if a.count == Script::HELD {
        return Err(Refusal::NO_ROOM);
    }
    let b = keep(h, taken, false);
    if b.count == Script::HELD {
        return Err(Refusal::NO_ROOM);
    }
    Ok(())
}
