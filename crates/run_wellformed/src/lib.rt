#![tactic(auto)]

ghost use Rattle.std.specs.Prelude.{◌≤◌, length};
ghost use Rattle.notation.specs.Limits.{run_words};
ghost use Rattle.read_tables.specs.Everywhere.{Everywhere};
ghost use Rattle.read_tables.specs.Whole.{Tables};
ghost use Rattle.run_words.specs.Raw.{raw_in};
ghost use Rattle.run_words.specs.Values.{Decided};
ghost use Rattle.run_wellformed.specs.Formed.{Formed};

use crate::fitting::ends_fit;
use crate::halting::halt_fits;
use crate::numbers::numbers_stand;
use crate::outwards::outside_outward;
use crate::typing::processes_typed;
use run_joints::well_joined;
use run_words::bounded::bounded;

mod alike;
pub mod fitting;
pub mod halting;
pub mod numbers;
pub mod outwards;
pub mod typing;

// Whether the words of a run are a well-formed configuration of this text.
pub fn well_formed(text: &[u8], scratch: &[u32], run: &[u32]) -> bool
    requires tables { Tables text.now scratch.now × Everywhere text.now scratch.now }
    requires run_words_in_bounds { run_words ≤ length run.now }
    ensures { Decided result (Formed text.now scratch.now (raw_in run.now)) }
{
    bounded(run)
        && numbers_stand(scratch, run)
        && processes_typed(text, scratch, run)
        && ends_fit(text, scratch, run)
        && outside_outward(text, scratch, run)
        && halt_fits(text, scratch, run)
        && well_joined(run)
}
