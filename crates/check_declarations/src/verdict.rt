// Refusals 6 to 9: four passes over the whole text, in their order.
ghost use Rattle.std.specs.Prelude.{◌≡◌};
ghost use Rattle.calculus.specs.Declarations.{declared};
ghost use Rattle.read_tables.specs.Decode.{script_in};
ghost use Rattle.read_tables.specs.Whole.{Tables};
ghost use Rattle.check_declarations.specs.Lowest.{refused_at};
ghost use Rattle.calculus.specs.Verdict.{verdict_of};

use crate::bare::bare_names;
use crate::execs::wrong_execs;
use crate::passes::{repeated_at, undefined_at};
use notation::refusal::Refusal;

// Refusal n at the lowest offset, if there is one.
fn refusal(number: u32, low: Option<usize>) -> Result<(), Refusal>
    ensures { verdict_of result ≡ refused_at number low }
{
    match low {
        None => Ok(()),
        Some(at) => Err(Refusal { number, at }),
    }
}

// What refusals 6 to 9 say of the declarations.
pub fn declared_verdict(text: &[u8], scratch: &[u32]) -> Result<(), Refusal>
    requires { Tables text.now scratch.now }
    ensures { verdict_of result ≡ declared (script_in text.now scratch.now) }
{
    refusal(Refusal::REPEATED, repeated_at(text, scratch))?;
    refusal(Refusal::UNDEFINED, undefined_at(text, scratch))?;
    refusal(Refusal::BARE_NAME, bare_names(text, scratch))?;
    refusal(Refusal::EXEC_RULE, wrong_execs(text, scratch))
}
