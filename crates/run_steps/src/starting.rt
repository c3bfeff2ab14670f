// "Start makes one process, the exec process's body with its signature's channels."
ghost use Rattle.std.specs.Prelude.{◌≡◌, ◌++◌, ◌+◌, ◌≤◌, ◌<◌, length};
ghost use Rattle.notation.specs.Limits.{held_limit, outside_numbers, run_words};
ghost use Rattle.calculus.specs.Runs.{exec_of};
ghost use Rattle.notation.specs.Tables.{Area};
ghost use Rattle.read_tables.specs.Program.{program_in};
ghost use Rattle.read_tables.specs.Whole.{Tables};
ghost use Rattle.run_words.specs.Lists.{tab};
ghost use Rattle.run_words.specs.Raw.{raw_in, Bounded, pointer_limit};
ghost use Rattle.run_words.specs.Operations.{on_outside};
ghost use Rattle.run_words.specs.Values.{Changed};
ghost use Rattle.check_contexts.specs.Signatures.{EntriesFit};
ghost use Rattle.run_steps.specs.Dispatch.{SmallSignatures};
ghost use Rattle.run_steps.specs.Starting.{start_channel, start_raw, Begins};

use check_contexts::signatures::with_entries;
use notation::reading::ProcessEntry;
use read_tables::access::{declared_process, entry, exec_at, exec_count};
use read_tables::search::find_process;
use run_words::held::no_ends;
use run_words::outside::{append_outside, set_given};
use run_words::places::begin;
use run_words::records::{Outside, PROVIDED, Process, RUNNING, UNLINKED};

// "The outside uses these channels, numbered from 0 in list order."
fn use_channels(scratch: &[u32], run: &mut [u32], first: usize, n: usize)
    requires area { Area scratch.now × EntriesFit scratch.now first n }
    requires run_words_in_bounds { (run_words ≤ length run.old) × Bounded (raw_in run.old) × (length (raw_in run.old).outside + n ≤ outside_numbers) }
    ensures changed { Changed run.old run.new (on_outside (λ l. l ++ tab (start_channel scratch.now first) n) (raw_in run.old)) }
    ensures bounded { Bounded (raw_in run.new) }
{
    for number in 0..n {
        let e = entry(scratch, first + number);
        append_outside(
            run,
            Outside {
                number: number as u32,
                node: e.number as u32,
                channel: number as u32,
            },
        );
    }
}

// The run of a process alone, with what it provides, which the outside uses.
fn begin_process(scratch: &[u32], run: &mut [u32], d: ProcessEntry)
    requires area { Area scratch.now × EntriesFit scratch.now d.first d.provided × (d.provided ≤ held_limit) × (d.body < pointer_limit) }
    requires run_words_in_bounds { run_words ≤ length run.old }
    ensures changed { Changed run.old run.new (start_raw scratch.now d.first d.provided d.body) }
    ensures bounded { Bounded (raw_in run.new) }
{
    let none = no_ends();
    let held = with_entries(scratch, none, d.first, d.provided, PROVIDED);
    let first = Process {
        kind: RUNNING,
        pointer: d.body as u32,
        link: UNLINKED,
        held,
    };
    begin(run, first);
    use_channels(scratch, run, d.first, d.provided);
    set_given(run, d.provided as u32);
}

// Writes the run of an exec line; false, and nothing written, where the line has no process.
pub fn begin_line(text: &[u8], scratch: &[u32], run: &mut [u32], line: usize) -> bool
    requires tables { Tables text.now scratch.now }
    requires run_words_in_bounds { run_words ≤ length run.old }
    requires small_signatures { SmallSignatures (program_in text.now scratch.now) }
    ensures { Begins text.now scratch.now run.old run.new result (exec_of (program_in text.now scratch.now) line) }
{
    if exec_count(scratch) <= line {
        return false;
    }
    let at = exec_at(scratch, line);
    let Some(k) = find_process(text, scratch, at) else {
        return false;
    };
    let d = declared_process(scratch, k);
    begin_process(scratch, run, d);
    true
}
