// Words that are copied and moved.
ghost use Rattle.run_words.specs.Raw.{held_words};
ghost use Rattle.std.specs.Prelude.{◌≡◌, ℕ, ◌+◌, ◌-◌, ◌≤◌, ◌<◌, length, get_or};
ghost use Rattle.run_words.specs.Values.{Moved};

use crate::records::HELD_WORDS;

// The n words of `from` at a place and after it, to a place of `to` and after it.
pub fn copy_words(from: &[u32], at: usize, to: &mut [u32], into: usize, n: usize)
    requires { (at + n ≤ length from.now) × (into + n ≤ length to.old) }
    ensures { Moved to.old to.new into (into + n) (λ k. get_or from.now (at + (k - into)) 0) }
{
    to[into..into + n].copy_from_slice(&from[at..at + n]);
}

// The words of what is held, from `at` on.
pub(crate) fn copy_out(run: &[u32], at: usize) -> [u32; HELD_WORDS]
    requires { at + held_words ≤ length run.now }
    ensures { (k : ℕ) → k < held_words → get_or result k 0 ≡ get_or run.now (at + k) 0 }
{
    let mut w = [0u32; HELD_WORDS];
    w.copy_from_slice(&run[at..at + HELD_WORDS]);
    w
}

// The words from `from` up to `to` move up.
pub(crate) fn move_up(run: &mut [u32], from: usize, to: usize, by: usize)
    requires { (from ≤ to) × (to + by ≤ length run.old) }
    ensures { Moved run.old run.new (from + by) (to + by) (λ k. get_or run.old (k - by) 0) }
{
    run.copy_within(from..to, from + by);
}

// The words from `from` up to `to` move down.
pub(crate) fn move_down(run: &mut [u32], from: usize, to: usize, by: usize)
    requires { (by ≤ from) × (from ≤ to) × (to ≤ length run.old) }
    ensures { Moved run.old run.new (from - by) (to - by) (λ k. get_or run.old (k + by) 0) }
{
    run.copy_within(from..to, from - by);
}
