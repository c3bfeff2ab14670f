// The check of a whole text: refusals 1 to 15.
ghost use Rattle.std.specs.Prelude.{◌≡◌, length};
ghost use Rattle.notation.specs.Limits.{scratch_words};
ghost use Rattle.check_text.specs.Texts.{TablesOf, PartChecked, TextChecked};

use crate::bodies::script_verdict;
use notation::refusal::Refusal;
use notation::script::Script;
use read_text::reading::{read, zero};

// In the words that the tables have.
fn check_part(text: &[u8], part: &mut [u32]) -> Result<(), Refusal>
    requires { length part.old ≡ scratch_words }
    ensures { PartChecked text.now result part.new }
{
    read(text, part)?;
    check_tables(text, part)
}

// The script in the tables: where it is refused, they are zeros afterwards.
fn check_tables(text: &[u8], part: &mut [u32]) -> Result<(), Refusal>
    requires { TablesOf text.now part.old }
    ensures { PartChecked text.now result part.new }
{
    match script_verdict(text, &part[0..Script::SCRATCH_WORDS]) {
        Ok(()) => Ok(()),
        Err(refusal) => {
            zero(part);
            Err(refusal)
        }
    }
}

// For texts and slices of any length: nothing is at fault, and the words hold the tables; or a refusal, and they are zeros, or untouched where there are too few.
pub fn check(text: &[u8], scratch: &mut [u32]) -> Result<(), Refusal>
    ensures { TextChecked text.now scratch.old result scratch.new }
{
    if scratch.len() < Script::SCRATCH_WORDS {
        return Err(Refusal {
            number: Refusal::SCRATCH_SHORT,
            at: 0,
        });
    }
    check_part(text, &mut scratch[0..Script::SCRATCH_WORDS])
}
