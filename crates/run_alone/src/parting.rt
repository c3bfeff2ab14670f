// An end is given up.
ghost use Rattle.std.specs.Prelude.{◌<◌, length};
ghost use Rattle.calculus.specs.Steps.{parting};
ghost use Rattle.run_words.specs.Raw.{raw_in, side_radix};
ghost use Rattle.run_alone.specs.Run.{config_in, process_as, RunOf, ProcessOf, Carries};
ghost use Rattle.run_alone.specs.Parting.{end_as, GivesUp};

use crate::outcome::Outcome;
use calculus::answers::Seen;
use run_words::far::far_end;
use run_words::outside::{let_go, outside_at};
use run_words::processes::store;
use run_words::records::{End, Far, Process};

// The outside lets go of the channel of an end that is given up, if the far end is the outside's; what that shows.
fn give_up(text: &[u8], scratch: &[u32], run: &mut [u32], e: End) -> Seen
    requires run_of { RunOf text.now scratch.now run.old }
    requires side_lt_side_radix { e.side < side_radix }
    ensures { GivesUp text.now scratch.now run.old run.new e result }
{
    let Far::Outside(k) = far_end(run, e.channel, e.side) else {
        return Seen::Nothing;
    };
    let o = outside_at(run, k);
    let_go(run, e.channel);
    Seen::Cancelled(o.number)
}

// The process p stands at a place, and has let go of the end e.
pub fn part(
    text: &[u8],
    scratch: &[u32],
    run: &mut [u32],
    place: usize,
    p: Process,
    e: End,
) -> Outcome
    requires run_of { RunOf text.now scratch.now run.old }
    requires place_in_bounds { place < length (raw_in run.old).processes }
    requires process_of { ProcessOf text.now scratch.now (length (raw_in run.old).processes) p }
    requires side_lt_side_radix { e.side < side_radix }
    ensures { Carries text.now scratch.now run.old run.new result (parting (config_in text.now scratch.now run.old) place (process_as text.now scratch.now p) (end_as text.now scratch.now e)) }
{
    let seen = give_up(text, scratch, run, e);
    store(run, place, p);
    Outcome::Carried(seen)
}
