// How much of its slices a caller lends, in words.
ghost use Rattle.std.specs.Prelude.{◌≡◌};
ghost use Rattle.call_lines.specs.Lending.{lent_at_first, lent_after};

use crate::lines::CallLine;
use notation::script::Script;

#[derive(Clone, Copy)]
pub struct Lent {
    pub scratch: usize,
    pub run: usize,
}

pub fn lent_at_first() -> Lent
    ensures { result ≡ lent_at_first }
{
    Lent {
        scratch: Script::SCRATCH_WORDS,
        run: Script::RUN_WORDS,
    }
}

// What is lent after a line, as `read_line` reads it.
#[tactic(auto, unfolding(crate::specs::Lending::lent_after))]
pub fn lend(lent: Lent, call: Option<CallLine>) -> Lent
    ensures { result ≡ lent_after call lent }
{
    match call {
        Some(CallLine::Scratch(n)) => Lent {
            scratch: n as usize,
            ..lent
        },
        Some(CallLine::RunWords(n)) => Lent {
            run: n as usize,
            ..lent
        },
        _ => lent,
    }
}
