// Where the name of an exec line's process stands in the text.
ghost use Rattle.check_accepted.specs.Texts.{TextIn};
ghost use Rattle.interpreter.specs.Entries.{NamesAt};
ghost use Rattle.interpreter.specs.Naming.{NamesIn};

use crate::inside::of_call;
use check_text::check::check;
use notation::refusal::Refusal;
use notation::script::Script;
use read_tables::access::{exec_at, exec_count};

// Its offset.
pub fn exec_place(text: &[u8], scratch: &mut [u32], line: u32) -> Result<usize, Refusal>
    ensures { NamesAt text.now scratch.old line result scratch.new }
{
    check(text, scratch)?;
    place_in(text, &scratch[0..Script::SCRATCH_WORDS], line)
}

// The same for an accepted text, whose tables are lent.
fn place_in(text: &[u8], tables: &[u32], line: u32) -> Result<usize, Refusal>
    requires { TextIn text.now tables.now }
    ensures { NamesIn text.now line result }
{
    let i = line as usize;
    if exec_count(tables) <= i {
        return Err(of_call(Refusal::NO_LINE));
    }
    Ok(exec_at(tables, i))
}
