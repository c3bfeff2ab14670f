// Whether a halted run is one that some step would halt.
ghost use Rattle.std.specs.Prelude.{◌≡◌, ◌+◌, length};
ghost use Rattle.notation.specs.Token.{name_at};
ghost use Rattle.calculus.specs.Named.{any_of, lookup};
ghost use Rattle.theory_decision.specs.Halting.{nobody_takes_over};
ghost use Rattle.run_words.specs.Raw.{raw_in};
ghost use Rattle.run_words.specs.Values.{process_in};
ghost use Rattle.check_contexts.specs.Held.{channels_of, HeldIn};
ghost use Rattle.run_alone.specs.Run.{config_in, RunOf, ProcessOf};
ghost use Rattle.run_messages.specs.Parties.{FarAt};
ghost use Rattle.run_wellformed.specs.Halting.{NobodyTakes, halts_in, halt_in};

use check_contexts::held::find_end;
use check_types::branches::branch_of;
use notation::kinds::{RAISE, RECV_LABEL, SEND_LABEL};
use run_messages::messages::{party_at, running_term};
use run_words::far::far_end;
use run_words::halting::is_halted;
use run_words::processes::{count, load};
use run_words::records::{Far, Held, Process, UNLINKED};

// A label comes to the far end at position k of what the process at place j holds: whether that process leaves it out, and nobody catches that.
fn leaves_out(text: &[u8], scratch: &[u32], run: &[u32], j: usize, k: usize, at: usize) -> bool
    requires run_of { RunOf text.now scratch.now run.now }
    requires far_at { FarAt text.now scratch.now run.now j k }
    ensures { NobodyTakes text.now scratch.now run.now j k at result }
{
    let Some(to) = party_at(text, scratch, run, j, k) else {
        return false;
    };
    let t = to.term;
    t.kind == RECV_LABEL
        && to.process.link == UNLINKED
        && branch_of(text, scratch, at, t.second, t.third).is_none()
}

// Whether the label at `at`, sent over the channel whose name is the one at `c`, is left out, and nobody catches that.
fn nobody_takes(text: &[u8], scratch: &[u32], run: &[u32], h: Held, c: usize, at: usize) -> bool
    requires run_of { RunOf text.now scratch.now run.now }
    requires held_in { HeldIn text.now scratch.now h }
    ensures { result ≡ nobody_takes_over (config_in text.now scratch.now run.now) (name_at text.now (at + 1)) (lookup (name_at text.now c) (channels_of text.now scratch.now h)) }
{
    let Some(e) = find_end(text, h, c) else {
        return false;
    };
    match far_end(run, e.channel, e.side) {
        Far::Process(j, k) => leaves_out(text, scratch, run, j, k, at),
        Far::Outside(_) => false,
        Far::GivenUp => false,
    }
}

// Whether the step of a process halts the run: by a raise, or by a label.
fn halts(text: &[u8], scratch: &[u32], run: &[u32], p: Process) -> bool
    requires run_of { RunOf text.now scratch.now run.now }
    requires process_of { ProcessOf text.now scratch.now (length (raw_in run.now).processes) p }
    ensures { result ≡ halts_in text.now scratch.now (raw_in run.now) (process_in p) }
{
    let Some(n) = running_term(scratch, p.kind, p.pointer) else {
        return false;
    };
    match n.kind {
        RAISE => p.link == UNLINKED,
        SEND_LABEL => nobody_takes(text, scratch, run, p.held, n.first, n.second),
        _ => false,
    }
}

// Whether the step of some process does.
fn some_halts(text: &[u8], scratch: &[u32], run: &[u32]) -> bool
    requires { RunOf text.now scratch.now run.now }
    ensures { result ≡ any_of (halts_in text.now scratch.now (raw_in run.now)) (raw_in run.now).processes }
{
    let n = count(run);
    for i in 0..n {
        if halts(text, scratch, run, load(run, i)) {
            return true;
        }
    }
    false
}

// "and of a halted run one step would halt it, were it not halted"
pub(crate) fn halt_fits(text: &[u8], scratch: &[u32], run: &[u32]) -> bool
    requires { RunOf text.now scratch.now run.now }
    ensures { result ≡ halt_in text.now scratch.now (raw_in run.now) }
{
    !is_halted(run) || some_halts(text, scratch, run)
}
