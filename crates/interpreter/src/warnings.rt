// A script's warnings, for those who have no program to print them.
ghost use Rattle.interpreter.specs.Warns.{Warns};

use calculus::answers::Missing;
use check_text::check::check;
use check_text::warnings;
use notation::refusal::Refusal;
use notation::script::Script;

// The warning of a number, from 0; or there is none of that number. The text is checked first, refusals 1 to 15; no run is read.
pub fn warning(text: &[u8], scratch: &mut [u32], number: u32) -> Result<Option<Missing>, Refusal>
    ensures { Warns text.now scratch.old number result scratch.new }
{
    check(text, scratch)?;
    let told = warnings::warning(text, &scratch[0..Script::SCRATCH_WORDS], number as usize);
    Ok(told)
}
