// What a step shows, put into a buffer with the words that stand around it.
ghost use Rattle.std.specs.Prelude.{◌++◌, ◌≡◌, ◌+◌, ◌*◌, ◌≤◌, length};
ghost use Rattle.notation.specs.Bytes.{bytes};
ghost use Rattle.notation.specs.Token.{name_at};
ghost use Rattle.calculus.specs.Printed.{decimal};
ghost use Rattle.print_bytes.specs.Writing.{Appended};
ghost use Rattle.print_bytes.specs.Seen.{channel_words, over_words, passed_words, seen_words, room};

use crate::writing::{put, put_decimal};
use calculus::answers::Seen;
use notation::token::name_of;

// The words before a channel's number, between it and what came over the channel, and after that.
#[derive(Clone, Copy)]
pub struct Around<'a> {
    pub before: &'a [u8],
    pub between: &'a [u8],
    pub after: &'a [u8],
}

// A channel's number with the words before and after it.
fn put_channel(out: &mut [u8], at: usize, around: Around, n: u32) -> usize
    requires { at + length around.before.now + length around.between.now + 10 ≤ length out.old }
    ensures appended { Appended out.old out.new at result (channel_words around.entry n) }
    ensures upper_bound { result ≤ at + length around.entry.before.now + length around.entry.between.now + 10 }
{
    let a = put(out, at, around.before);
    let b = put_decimal(out, a, n as usize);
    put(out, b, around.between)
}

// What came over the channel n.
fn put_over(out: &mut [u8], at: usize, around: Around, n: u32, what: &[u8]) -> usize
    requires { at + room around + 10 + length what.now ≤ length out.old }
    ensures { Appended out.old out.new at result (over_words around.entry n what.now) }
{
    let a = put_channel(out, at, around, n);
    let b = put(out, a, what);
    put(out, b, around.after)
}

// The label whose apostrophe stands at `label` came over the channel n.
#[tactic(auto, using(notation::proofs::Names::name_within))]
fn put_label(text: &[u8], out: &mut [u8], at: usize, around: Around, n: u32, label: u32) -> usize
    requires { at + room around + 11 + length text.now ≤ length out.old }
    ensures { Appended out.old out.new at result (over_words around.entry n (bytes "'" ++ name_at text.now (label + 1))) }
{
    let a = put_channel(out, at, around, n);
    let b = put(out, a, b"'");
    let c = put(out, b, name_of(text, label as usize + 1));
    put(out, c, around.after)
}

// The channel m came over the channel n; whether m had been given up already is told after it.
fn put_passed(out: &mut [u8], at: usize, around: Around, n: u32, m: u32, gone: bool) -> usize
    requires { at + 2 * room around + 40 ≤ length out.old }
    ensures { Appended out.old out.new at result (passed_words around.entry n m gone) }
{
    let a = put_channel(out, at, around, n);
    let b = put(out, a, b"#");
    let c = put_decimal(out, b, m as usize);
    let d = put(out, c, around.after);
    if gone {
        return put_over(out, d, around, m, b"cancelled");
    }
    d
}

#[tactic(auto, unfolding(crate::specs::Seen::seen_with))]
pub fn put_seen(text: &[u8], out: &mut [u8], at: usize, around: Around, seen: Seen) -> usize
    requires { at + length text.now + 2 * room around + 40 ≤ length out.old }
    ensures { Appended out.old out.new at result (seen_words around.entry text.now seen) }
{
    match seen {
        Seen::Nothing => at,
        Seen::Label(n, label) => put_label(text, out, at, around, n, label),
        Seen::Close(n) => put_over(out, at, around, n, b"()"),
        Seen::Passed(n, m, gone) => put_passed(out, at, around, n, m, gone),
        Seen::Cancelled(n) => put_over(out, at, around, n, b"cancelled"),
    }
}
