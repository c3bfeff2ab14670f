// Terms that go on with one rest: what is held after each, or the refusal's number.
ghost use Rattle.std.specs.Prelude.{◌≡◌, not, ℕ, ◌+◌, ◌<◌, ◌≤◌, List};
ghost use Rattle.notation.specs.Token.{name_at};
ghost use Rattle.calculus.specs.Named.{lookup, is_some};
ghost use Rattle.check_contexts.specs.Held.{HeldIn};
ghost use Rattle.run_words.specs.Raw.{side_of};
ghost use Rattle.read_tables.specs.Program.{program_in};
ghost use Rattle.read_tables.specs.Whole.{Tables};
ghost use Rattle.notation.specs.Limits.{text_limit};
ghost use Rattle.check_terms.specs.Next.{context_in, Goes};
ghost use Rattle.check_terms.specs.Rules.{closes, passes, chooses, gives_up, receives};

use crate::acting::{acting, chooses_over, is_unit, passes_over, takes_from};
use check_contexts::held::{bring_end, drop_end, find_end, retype_end};
use notation::refusal::Refusal;
use notation::script::Script;
use notation::token::names_equal;
use notation::words::{narrow, wide};
use run_words::records::Held;

// `send c ()` on the provided side, `recv c (() => P)` on the used one.
pub fn close_next(text: &[u8], scratch: &[u32], h: Held, c: usize, side: u32) -> Result<Held, u32>
    requires { Tables text.now scratch.now × HeldIn text.now scratch.now h × (side < 2) }
    ensures { Goes text.now scratch.now result (closes (program_in text.now scratch.now) (side_of side) (name_at text.now c) (context_in text.now scratch.now h)) }
{
    let e = acting(text, scratch, h, c).ok_or(Refusal::NOT_HELD)?;
    if e.side != side {
        return Err(Refusal::UNFIT);
    }
    if !is_unit(scratch, wide(e.node)) {
        return Err(Refusal::UNFIT);
    }
    Ok(drop_end(text, h, c))
}

// `send c a`.
pub fn pass_next(text: &[u8], scratch: &[u32], h: Held, c: usize, a: usize) -> Result<Held, u32>
    requires { Tables text.now scratch.now × HeldIn text.now scratch.now h }
    ensures { Goes text.now scratch.now result (passes (program_in text.now scratch.now) (name_at text.now c) (name_at text.now a) (context_in text.now scratch.now h)) }
{
    let e = acting(text, scratch, h, c).ok_or(Refusal::NOT_HELD)?;
    let d = find_end(text, h, a).ok_or(Refusal::NOT_HELD)?;
    if names_equal(text, c, a) {
        return Err(Refusal::UNFIT);
    }
    let after = passes_over(text, scratch, e, d).ok_or(Refusal::UNFIT)?;
    let left = drop_end(text, h, a);
    Ok(retype_end(text, left, c, narrow(after)))
}

// `send c 'l`.
pub fn choose_next(text: &[u8], scratch: &[u32], h: Held, c: usize, l: usize) -> Result<Held, u32>
    requires { Tables text.now scratch.now × HeldIn text.now scratch.now h }
    ensures { Goes text.now scratch.now result (chooses (program_in text.now scratch.now) (name_at text.now c) (name_at text.now (l + 1)) (context_in text.now scratch.now h)) }
{
    let e = acting(text, scratch, h, c).ok_or(Refusal::NOT_HELD)?;
    let after = chooses_over(text, scratch, e, l).ok_or(Refusal::UNFIT)?;
    Ok(retype_end(text, h, c, narrow(after)))
}

// `cancel c`.
pub fn cancel_next(text: &[u8], scratch: &[u32], h: Held, c: usize) -> Result<Held, u32>
    requires { Tables text.now scratch.now × HeldIn text.now scratch.now h }
    ensures { Goes text.now scratch.now result (gives_up (name_at text.now c) (context_in text.now scratch.now h)) }
{
    if is_new(text, h, c) {
        return Err(Refusal::NOT_HELD);
    }
    Ok(drop_end(text, h, c))
}

// No channel that is held has the name at x.
pub fn is_new(text: &[u8], h: Held, x: usize) -> bool
    requires { h.count ≤ 16 }
    ensures { (w : List ℕ) → result ≡ not (is_some (lookup (name_at text.now x) (context_in text.now w h))) }
{
    find_end(text, h, x).is_none()
}

// `recv c (x => P)`.
pub fn receive_next(text: &[u8], scratch: &[u32], h: Held, c: usize, x: usize) -> Result<Held, u32>
    requires { Tables text.now scratch.now × HeldIn text.now scratch.now h × (x < text_limit) }
    ensures { Goes text.now scratch.now result (receives (program_in text.now scratch.now) (name_at text.now c) (name_at text.now x) (context_in text.now scratch.now h)) }
{
    let e = acting(text, scratch, h, c).ok_or(Refusal::NOT_HELD)?;
    let t = takes_from(scratch, e).ok_or(Refusal::UNFIT)?;
    if !is_new(text, h, x) {
        return Err(Refusal::NO_ROOM);
    }
    if h.count == Script::HELD {
        return Err(Refusal::NO_ROOM);
    }
    let left = retype_end(text, h, c, narrow(t.after));
    Ok(bring_end(left, narrow(x), t.side, narrow(t.what), 0))
}
