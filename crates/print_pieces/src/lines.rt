// The lines that the program prints, each from the start of the buffer on.
ghost use Rattle.std.specs.Prelude.{◌++◌, ◌≡◌, ◌+◌, ◌≤◌, length};
ghost use Rattle.notation.specs.Bytes.{bytes};
ghost use Rattle.notation.specs.Token.{name_at};
ghost use Rattle.calculus.specs.Printed.{decimal, line, sighting, ending};
ghost use Rattle.print_bytes.specs.Writing.{Appended};

use calculus::answers::Seen;
use notation::refusal::Refusal;
use notation::token::name_of;
use print_bytes::seen::{Around, put_seen};
use print_bytes::writing::{put, put_decimal};

const AROUND: Around = Around {
    before: b"#",
    between: b" -> ",
    after: b"\n",
};

#[tactic(auto, using(crate::specs::Lines::sighting_is))]
pub(crate) fn put_sighting(text: &[u8], out: &mut [u8], seen: Seen) -> usize
    requires { length text.now + 52 ≤ length out.old }
    ensures { Appended out.old out.new 0 result (sighting text.now seen) }
{
    put_seen(text, out, 0, AROUND, seen)
}

// Words, and the name that stands at `name`.
#[tactic(auto, using(notation::proofs::Names::name_within))]
pub(crate) fn put_named(text: &[u8], out: &mut [u8], words: &[u8], name: usize) -> usize
    requires { length words.now + length text.now ≤ length out.old }
    ensures appended { Appended out.old out.new 0 result (words.now ++ name_at text.now name) }
    ensures upper_bound { result ≤ length words.now + length text.now }
{
    let a = put(out, 0, words);
    put(out, a, name_of(text, name))
}

// The header of an exec whose process's name stands at `name`.
pub(crate) fn put_header(text: &[u8], out: &mut [u8], name: usize) -> usize
    requires { length text.now + 20 ≤ length out.old }
    ensures { Appended out.old out.new 0 result (line (bytes "Executing process " ++ (name_at text.now name ++ bytes ":"))) }
{
    let a = put_named(text, out, b"Executing process ", name);
    put(out, a, b":\n")
}

// The name of the label whose apostrophe stands at `label`.
fn label_name(text: &[u8], label: usize) -> &[u8]
    ensures { result.now ≡ name_at text.now (label + 1) }
{
    if label < text.len() {
        return name_of(text, label + 1);
    }
    name_of(text, label)
}

// The end of a warning's line: the label whose apostrophe stands at `label`.
#[tactic(auto, using(notation::proofs::Names::name_within))]
pub(crate) fn put_missing(text: &[u8], out: &mut [u8], label: usize) -> usize
    requires { length text.now + 12 ≤ length out.old }
    ensures { Appended out.old out.new 0 result (line (bytes ", missing '" ++ name_at text.now (label + 1))) }
{
    let a = put(out, 0, b", missing '");
    let b = put(out, a, label_name(text, label));
    put(out, b, b"\n")
}

pub(crate) fn put_ending(out: &mut [u8], word: &[u8], steps: u32) -> usize
    requires { length word.now + 24 ≤ length out.old }
    ensures { Appended out.old out.new 0 result (ending word.now steps) }
{
    let a = put(out, 0, word);
    let b = put(out, a, b" after ");
    let c = put_decimal(out, b, steps as usize);
    put(out, c, b" steps\n")
}

pub(crate) fn put_refusal(out: &mut [u8], refusal: Refusal) -> usize
    requires { 33 ≤ length out.old }
    ensures { Appended out.old out.new 0 result (line (bytes "refused " ++ (decimal refusal.number ++ (bytes " at " ++ decimal refusal.at)))) }
{
    let a = put(out, 0, b"refused ");
    let b = put_decimal(out, a, refusal.number as usize);
    let c = put(out, b, b" at ");
    let d = put_decimal(out, c, refusal.at);
    put(out, d, b"\n")
}
