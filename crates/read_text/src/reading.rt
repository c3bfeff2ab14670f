// The reading of a whole text into the lent words.
ghost use Rattle.std.specs.Prelude.{◌≡◌, ◌<◌, length};
ghost use Rattle.notation.specs.Limits.{scratch_words};
ghost use Rattle.notation.specs.Tables.{write_counts, zeros, Within};
ghost use Rattle.read_text.specs.Reading.{Filled, TextRead};

use crate::scripts::read_script;
use notation::reading::{Cursor, Tally};
use notation::refusal::Refusal;
use notation::script::Script;
use read_types::store::put_word;

// All words are 0.
pub fn zero(part: &mut [u32])
    requires { length part.old ≡ scratch_words }
    ensures { part.new ≡ zeros }
{
    part.fill(0);
}

// The first eight words: how many entries each table has.
#[tactic(auto, unfolding(notation::specs::Tables::write_counts))]
fn write_counts(part: &mut [u32], k: &Tally)
    requires part_len { length part.old ≡ scratch_words }
    requires within { Within k.now }
    ensures { part.new ≡ write_counts k.now part.old }
{
    put_word(part, 0, k.types);
    put_word(part, 1, k.processes);
    put_word(part, 2, k.execs);
    put_word(part, 3, k.entries);
    put_word(part, 4, k.nodes);
    put_word(part, 5, k.alternatives);
    put_word(part, 6, k.terms);
    put_word(part, 7, k.branches);
}

// Reads a text into the words of its tables.
fn fill(text: &[u8], part: &mut [u32]) -> Result<Script, Refusal>
    requires { length part.old ≡ scratch_words }
    ensures { Filled text.now result part.new }
{
    zero(part);
    if text.len() > Script::TEXT {
        return Err(Refusal {
            number: Refusal::TEXT_LONG,
            at: Script::TEXT,
        });
    }
    let mut c = Cursor {
        at: 0,
        types: 0,
        terms: 0,
        depth: 0,
    };
    let mut k = Tally {
        types: 0,
        processes: 0,
        execs: 0,
        entries: 0,
        nodes: 0,
        alternatives: 0,
        terms: 0,
        branches: 0,
        last: 0,
    };
    match read_script(text, part, &mut c, &mut k) {
        Ok(()) => {
            write_counts(part, &k);
            Ok(Script {
                types: k.types,
                processes: k.processes,
                execs: k.execs,
            })
        }
        Err(e) => {
            zero(part);
            Err(e)
        }
    }
}

// Refusals 1 to 5 of a text, or its tables in the first words of scratch.
pub fn read(text: &[u8], scratch: &mut [u32]) -> Result<Script, Refusal>
    ensures { TextRead text.now scratch.old result scratch.new }
{
    if scratch.len() < Script::SCRATCH_WORDS {
        return Err(Refusal {
            number: Refusal::SCRATCH_SHORT,
            at: 0,
        });
    }
    fill(text, &mut scratch[0..Script::SCRATCH_WORDS])
}
