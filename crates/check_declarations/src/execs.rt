// Refusal 9: an exec's process uses nothing, and its provided types reach only 1, * and +.
ghost use Rattle.std.specs.Prelude.{◌≡◌, ◌<◌};
ghost use Rattle.notation.specs.Limits.{exec_limit};
ghost use Rattle.notation.specs.Token.{name_at};
ghost use Rattle.calculus.specs.Declarations.{keeps_rule, wrong_execs};
ghost use Rattle.calculus.specs.Named.{lookup};
ghost use Rattle.read_tables.specs.Decode.{script_in};
ghost use Rattle.read_tables.specs.Program.{program_in, exec_in};
ghost use Rattle.read_tables.specs.Whole.{Tables, EntriesIn};
ghost use Rattle.check_declarations.specs.Execs.{entry_other, breaking_at};
ghost use Rattle.check_declarations.specs.Lowest.{Lowered, least};
ghost use Rattle.check_declarations.specs.Reach.{marked, any_below, Reaches};

use crate::lowest::lowered;
use crate::reach::{has_other, reach};
use notation::script::Script;
use read_tables::access::{declared_process, entry, exec_at, exec_count};
use read_tables::search::find_process;

// One of the n signature entries from the place i on has @, -o or &, or a marked name.
fn entries_other(
    text: &[u8],
    scratch: &[u32],
    marks: [bool; Script::TYPES],
    i: usize,
    n: usize,
) -> bool
    requires { Tables text.now scratch.now × EntriesIn text.now scratch.now i n }
    ensures { result ≡ any_below (entry_other text.now scratch.now (marked text.now scratch.now marks) i) n }
{
    for k in 0..n {
        let e = entry(scratch, i + k);
        if has_other(text, scratch, marks, e.number) {
            return true;
        }
    }
    false
}

// The process whose name is at `at` keeps the rule, if there is one.
fn keeps_rule(text: &[u8], scratch: &[u32], marks: [bool; Script::TYPES], at: usize) -> bool
    requires { Tables text.now scratch.now × Reaches text.now scratch.now marks }
    ensures { result ≡ keeps_rule (program_in text.now scratch.now) (lookup (name_at text.now at) (program_in text.now scratch.now).processes) }
{
    let f = find_process(text, scratch, at);
    let Some(j) = f else {
        return true;
    };
    let d = declared_process(scratch, j);
    if d.used != 0 {
        return false;
    }
    let other = entries_other(text, scratch, marks, d.first, d.provided);
    !other
}

// The exec i where its process breaks the rule.
fn wrong_exec(
    text: &[u8],
    scratch: &[u32],
    marks: [bool; Script::TYPES],
    i: usize,
    low: Option<usize>,
) -> Option<usize>
    requires { Tables text.now scratch.now × Reaches text.now scratch.now marks × (i < exec_limit) }
    ensures { Lowered low (breaking_at (program_in text.now scratch.now) (exec_in text.now scratch.now) i) result }
{
    let at = exec_at(scratch, i);
    if keeps_rule(text, scratch, marks, at) {
        return low;
    }
    lowered(low, at)
}

// Refusal 9: where an exec breaks the rule.
pub(crate) fn wrong_execs(text: &[u8], scratch: &[u32]) -> Option<usize>
    requires { Tables text.now scratch.now }
    ensures { Lowered least (wrong_execs (script_in text.now scratch.now)) result }
{
    let marks = reach(text, scratch);
    let n = exec_count(scratch);
    let mut l = None;
    for i in 0..n {
        l = wrong_exec(text, scratch, marks, i, l);
    }
    l
}
