// Words laid into a lent slice.
ghost use Rattle.std.specs.Prelude.{◌+◌, ◌≤◌, length};
ghost use Rattle.print_bytes.specs.Writing.{Putting};
ghost use Rattle.call_words.specs.Words.{answer_words};
ghost use Rattle.call_words.specs.Laying.{Tells};

// How many words of an answer are written.
pub(crate) const ANSWER_WORDS: usize = 130;

// Returned where the answer has too few words; then no slice is touched.
pub(crate) const ANSWER_SHORT: u32 = 255;

// From `at` on the words are written.
pub(crate) fn lay(out: &mut [u32], at: usize, what: &[u32])
    requires { at + length what.now ≤ length out.old }
    ensures { Putting out.old out.new at what.now (length what.now) }
{
    out[at..at + what.len()].copy_from_slice(what);
}

// The words of an answer are written, and the first of them, its refusal's number, handed back.
pub(crate) fn tell(answer: &mut [u32], words: [u32; ANSWER_WORDS]) -> u32
    requires { answer_words ≤ length answer.old }
    ensures { Tells answer.old answer.new words result }
{
    lay(answer, 0, &words);
    words[0]
}
