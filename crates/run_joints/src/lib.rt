#![tactic(auto)]

ghost use Rattle.std.specs.Prelude.{◌≤◌, length};
ghost use Rattle.notation.specs.Limits.{run_words};
ghost use Rattle.run_words.specs.Raw.{raw_in, Bounded};
ghost use Rattle.run_joints.specs.Answers.{Answers};
ghost use Rattle.run_joints.specs.WellJoined.{well_joined};

use crate::circles::forest;
use crate::links::{handlers_linked, linked_once, links_lead};
use crate::numbers::{numbers_given, numbers_rise};

pub mod circles;
pub mod links;
pub mod numbers;

// Whether all of it holds.
pub fn well_joined(run: &[u32]) -> bool
    requires run_words_in_bounds { run_words ≤ length run.now }
    requires bounded { Bounded (raw_in run.now) }
    ensures { Answers result well_joined (raw_in run.now) }
{
    links_lead(run)
        && handlers_linked(run)
        && linked_once(run)
        && forest(run)
        && numbers_rise(run)
        && numbers_given(run)
}
