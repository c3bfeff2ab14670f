// Whether the types of the outside's channels reach only 1, * and +.
ghost use Rattle.std.specs.Prelude.{◌≡◌, ◌≤◌, length};
ghost use Rattle.notation.specs.Limits.{run_words};
ghost use Rattle.calculus.specs.Named.{every};
ghost use Rattle.read_tables.specs.Everywhere.{Everywhere};
ghost use Rattle.read_tables.specs.Whole.{Tables};
ghost use Rattle.run_words.specs.Raw.{raw_in, Bounded};
ghost use Rattle.run_wellformed.specs.OfText.{OfText};
ghost use Rattle.run_wellformed.specs.Outward.{outward_in};

use check_declarations::reach::{has_other, reach};
use notation::words::wide;
use run_words::outside::{outside_at, outside_count};

pub(crate) fn outside_outward(text: &[u8], scratch: &[u32], run: &[u32]) -> bool
    requires tables { Tables text.now scratch.now × Everywhere text.now scratch.now }
    requires run_words_in_bounds { run_words ≤ length run.now }
    requires bounded { Bounded (raw_in run.now) }
    requires of_text { OfText scratch.now (raw_in run.now) }
    ensures { result ≡ every (outward_in text.now scratch.now) (raw_in run.now).outside }
{
    let marks = reach(text, scratch);
    let n = outside_count(run);
    for k in 0..n {
        let o = outside_at(run, k);
        if has_other(text, scratch, marks, wide(o.node)) {
            return false;
        }
    }
    true
}
