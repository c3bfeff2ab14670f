// The outside's numbers: they rise, and all of them are given.
ghost use Rattle.std.specs.Prelude.{◌≤◌, ◌<◌, length};
ghost use Rattle.notation.specs.Limits.{run_words};
ghost use Rattle.run_words.specs.Raw.{raw_in, Bounded};
ghost use Rattle.run_joints.specs.Answers.{Answers};
ghost use Rattle.run_joints.specs.Numbers.{numbers_rise, numbers_given};

use run_words::outside::{given, outside_at, outside_count};

// Whether each number is below the next.
pub(crate) fn numbers_rise(run: &[u32]) -> bool
    requires run_words_in_bounds { run_words ≤ length run.now }
    requires bounded { Bounded (raw_in run.now) }
    ensures { Answers result numbers_rise (raw_in run.now) }
{
    let mut low: u32 = 0;
    for k in 0..outside_count(run) {
        let o = outside_at(run, k);
        if o.number < low {
            return false;
        }
        low = o.number + 1;
    }
    true
}

// Whether each number was given.
pub(crate) fn numbers_given(run: &[u32]) -> bool
    requires run_words_in_bounds { run_words ≤ length run.now }
    requires bounded { Bounded (raw_in run.now) }
    ensures { Answers result numbers_given (raw_in run.now) }
{
    let g = given(run);
    for k in 0..outside_count(run) {
        let o = outside_at(run, k);
        if g <= o.number {
            return false;
        }
    }
    true
}
