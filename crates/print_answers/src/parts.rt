// The parts that several kinds of answer have: a refusal, and what was seen.
ghost use Rattle.std.specs.Prelude.{◌≡◌, ◌+◌, ◌≤◌, length};
ghost use Rattle.print_bytes.specs.Writing.{Appended};
ghost use Rattle.print_answers.specs.Answers.{has_offset, refused_words, seen_words};

use calculus::answers::Seen;
use notation::refusal::Refusal;
use print_bytes::seen::Around;
use print_bytes::writing::{put, put_decimal};

// A refusal that speaks of a byte of the text.
fn has_offset(n: u32) -> bool
    ensures { result ≡ has_offset n }
{
    matches!(n, 2..=15)
}

#[tactic(auto, unfolding(crate::specs::Answers::refused_words))]
pub(crate) fn put_refused(out: &mut [u8], at: usize, refusal: Refusal) -> usize
    requires { at + 32 ≤ length out.old }
    ensures { Appended out.old out.new at result (refused_words refusal.number refusal.at) }
{
    let a = put(out, at, b"refused ");
    let b = put_decimal(out, a, refusal.number as usize);
    if has_offset(refusal.number) {
        let c = put(out, b, b" at ");
        return put_decimal(out, c, refusal.at);
    }
    b
}

const AROUND: Around = Around {
    before: b", #",
    between: b" ",
    after: b"",
};

#[tactic(auto, using(crate::specs::Parts::seen_is))]
pub(crate) fn put_seen(text: &[u8], out: &mut [u8], at: usize, seen: Seen) -> usize
    requires { at + length text.now + 48 ≤ length out.old }
    ensures { Appended out.old out.new at result (seen_words text.now seen) }
{
    print_bytes::seen::put_seen(text, out, at, AROUND, seen)
}
