// `fwd x c`: what the rule refuses, by its number.
ghost use Rattle.std.specs.Prelude.{◌≡◌, ◌&&◌, ℕ, ◌<◌};
ghost use Rattle.notation.specs.Token.{name_at};
ghost use Rattle.calculus.specs.Types.{provided, used, same_side};
ghost use Rattle.calculus.specs.Checking.{fits_slot};
ghost use Rattle.check_contexts.specs.Held.{EndIn, HeldIn};
ghost use Rattle.run_words.specs.Values.{end_in};
ghost use Rattle.read_tables.specs.Program.{program_in};
ghost use Rattle.read_tables.specs.Whole.{Tables};
ghost use Rattle.check_terms.specs.Acting.{slot_in};
ghost use Rattle.check_terms.specs.Next.{context_in};
ghost use Rattle.check_terms.specs.Endings.{answer_of, forwards, joins};

use check_contexts::held::{drop_end, find_end};
use check_types::equality::same_type;
use notation::refusal::Refusal;
use notation::words::wide;
use run_words::records::{End, Held, PROVIDED, USED};

// The end x is provided, c is used, and their types are equal.
fn may_join(text: &[u8], scratch: &[u32], x: End, c: End) -> bool
    requires { Tables text.now scratch.now × EndIn text.now scratch.now (end_in x) × EndIn text.now scratch.now (end_in c) × (x.side < 2) × (c.side < 2) }
    ensures { result ≡ joins (program_in text.now scratch.now) (slot_in text.now scratch.now x) (slot_in text.now scratch.now c) }
{
    if x.side != PROVIDED || c.side != USED {
        return false;
    }
    same_type(text, scratch, wide(c.node), wide(x.node))
}

pub fn check_forward(text: &[u8], scratch: &[u32], h: Held, x: usize, c: usize) -> Result<(), u32>
    requires { Tables text.now scratch.now × HeldIn text.now scratch.now h }
    ensures { result ≡ answer_of (forwards (program_in text.now scratch.now) (name_at text.now x) (name_at text.now c) (context_in text.now scratch.now h)) }
{
    let e = find_end(text, h, x).ok_or(Refusal::NOT_HELD)?;
    let d = find_end(text, h, c).ok_or(Refusal::NOT_HELD)?;
    if !may_join(text, scratch, e, d) {
        return Err(Refusal::UNFIT);
    }
    let l = drop_end(text, h, x);
    let r = drop_end(text, l, c);
    if r.count != 0 {
        return Err(Refusal::LEFT_OVER);
    }
    Ok(())
}
