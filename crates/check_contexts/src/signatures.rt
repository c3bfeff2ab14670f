// The ends that signature entries give: what a body holds when it is checked, and what a process holds at start.
ghost use Rattle.std.specs.Prelude.{◌+◌, ◌≤◌, ◌<◌};
ghost use Rattle.notation.specs.Limits.{held_limit};
ghost use Rattle.notation.specs.Tables.{Area};
ghost use Rattle.run_words.specs.Raw.{side_radix};
ghost use Rattle.check_contexts.specs.Signatures.{EntriesFit, WithEntries};

use read_tables::access::entry;
use run_words::held::with;
use run_words::records::{End, Held};

// With n ends more, of this side: those of the signature entries from the place `first` on, on the channels from 0 on,
// as a start has them; a check looks at no channel.
pub fn with_entries(scratch: &[u32], h: Held, first: usize, n: usize, side: u32) -> Held
    requires { Area scratch.now × EntriesFit scratch.now first n × (h.count + n ≤ held_limit) × (side < side_radix) }
    ensures { WithEntries scratch.now h side first n result }
{
    let mut r = h;
    for k in 0..n {
        let e = entry(scratch, first + k);
        r = with(
            r,
            End {
                name: e.at as u32,
                side,
                node: e.number as u32,
                channel: k as u32,
            },
        );
    }
    r
}
