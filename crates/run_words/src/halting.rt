// The halt: a word of the run by itself.
ghost use Rattle.std.specs.Prelude.{◌≡◌, ◌≤◌, length};
ghost use Rattle.notation.specs.Limits.{run_words};
ghost use Rattle.run_words.specs.Raw.{raw_in, Bounded};
ghost use Rattle.run_words.specs.Values.{Changed};
ghost use Rattle.run_words.specs.Operations.{with_halted};
ghost use Rattle.run_words.specs.Decode.{is_halted};

use crate::records::HALTED;

// Whether the run has halted.
pub fn is_halted(run: &[u32]) -> bool
    requires { run_words ≤ length run.now }
    ensures { result ≡ is_halted (raw_in run.now).halted }
{
    0 < run[HALTED]
}

// The run halts, and all else stays as it is.
pub fn set_halted(run: &mut [u32])
    requires run_words_in_bounds { run_words ≤ length run.old }
    requires bounded { Bounded (raw_in run.old) }
    ensures changed { Changed run.old run.new (with_halted (raw_in run.old) 1) }
    ensures still_bounded { Bounded (raw_in run.new) }
{
    run[HALTED] = 1;
}
