// Which bytes the names that are held begin with: a walk over a process meets many names, and most of them begin with another byte.
ghost use Rattle.std.specs.Prelude.{◌≡◌, ◌<◌, ◌≤◌, ◌%◌, get_or};
ghost use Rattle.notation.specs.Limits.{held_limit};
ghost use Rattle.check_contexts.specs.Initials.{initial_radix, may_begin, Initials};

use crate::held::name_at;
use notation::token::{byte_at, is_name_byte};
use run_words::records::HELD_WORDS;

// First bytes are told apart by their remainders: no two letters have the same.
pub(crate) const INITIALS: usize = 64;

fn initial(b: u8) -> usize
    ensures value { result ≡ b % initial_radix }
    ensures upper_bound { result < initial_radix }
{
    b as usize % INITIALS
}

// The initials of the first n names that are held; all, where one of these names is empty, since it begins with no byte.
pub(crate) fn held_initials(text: &[u8], ends: &[u32; HELD_WORDS], n: usize) -> [bool; INITIALS]
    requires { n ≤ held_limit }
    ensures { Initials text.now ends.now n result }
{
    let mut r = [false; INITIALS];
    for k in 0..n {
        let b = byte_at(text, name_at(ends, k));
        if !is_name_byte(b) {
            return [true; INITIALS];
        }
        r[initial(b)] = true;
    }
    r
}

// The name at `at` may be one that is held, by its first byte.
pub(crate) fn may_be_held(text: &[u8], initials: &[bool; INITIALS], at: usize) -> bool
    ensures { result ≡ may_begin initials.now (get_or text.now at 0) }
{
    initials[initial(byte_at(text, at))]
}
