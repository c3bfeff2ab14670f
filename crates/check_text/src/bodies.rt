// Refusals 10 to 15 of a script: its processes in text order, in each the signature's 17th name first, then the body.
ghost use Rattle.std.specs.Prelude.{◌≡◌, ◌+◌, ◌-◌, ◌<◌, ◌≤◌, ltb};
ghost use Rattle.notation.specs.Limits.{held_limit};
ghost use Rattle.calculus.specs.Checking.{check_declaration, typed};
ghost use Rattle.calculus.specs.Declarations.{declared};
ghost use Rattle.calculus.specs.Verdict.{and_then};
ghost use Rattle.calculus.specs.Verdict.{verdict_of};
ghost use Rattle.read_tables.specs.Access.{sum_limit};
ghost use Rattle.read_tables.specs.Decode.{tally_in, proc_declaration, script_in};
ghost use Rattle.read_tables.specs.Program.{program_in};
ghost use Rattle.read_tables.specs.Whole.{Tables, SignatureIn};
ghost use Rattle.check_text.specs.Bodies.{SignatureHeld};

use check_contexts::signatures::with_entries;
use check_declarations::verdict::declared_verdict;
use check_processes::process::check_process;
use notation::reading::ProcessEntry;
use notation::refusal::Refusal;
use notation::script::Script;
use read_tables::access::{declared_process, entry, process_count};
use run_words::held::no_ends;
use run_words::records::{Held, PROVIDED, USED};

// What a process's signature has it hold: provided channels first.
pub(crate) fn signature_held(text: &[u8], scratch: &[u32], e: ProcessEntry) -> Held
    requires { Tables text.now scratch.now × SignatureIn text.now scratch.now e × (e.first + e.provided < sum_limit) × (e.provided ≤ held_limit) × (e.used ≤ held_limit - e.provided) }
    ensures { SignatureHeld text.now scratch.now e result }
{
    let none = no_ends();
    let provided = with_entries(scratch, none, e.first, e.provided, PROVIDED);
    with_entries(scratch, provided, e.first + e.provided, e.used, USED)
}

// The check of the process i of the script.
fn check_body(text: &[u8], scratch: &[u32], i: usize) -> Result<(), Refusal>
    requires { Tables text.now scratch.now × (i < (tally_in scratch.now).processes) }
    ensures { verdict_of result ≡ check_declaration (program_in text.now scratch.now) (proc_declaration text.now scratch.now i) }
{
    let e = declared_process(scratch, i);
    if has_seventeenth(e) {
        let t = entry(scratch, e.first + Script::HELD);
        return Err(Refusal {
            number: Refusal::NO_ROOM,
            at: t.at,
        });
    }
    let h = signature_held(text, scratch, e);
    check_process(text, scratch, h, e.body)
}

// A signature has more than 16 names.
fn has_seventeenth(e: ProcessEntry) -> bool
    ensures { result ≡ ltb held_limit (e.provided + e.used) }
{
    Script::HELD < e.provided || Script::HELD - e.provided < e.used
}

// The check of each process, in text order.
fn check_bodies(text: &[u8], scratch: &[u32]) -> Result<(), Refusal>
    requires { Tables text.now scratch.now }
    ensures { verdict_of result ≡ typed (script_in text.now scratch.now) }
{
    let n = process_count(scratch);
    for i in 0..n {
        check_body(text, scratch, i)?;
    }
    Ok(())
}

// Refusals 6 to 15 of the script in the tables.
pub(crate) fn script_verdict(text: &[u8], scratch: &[u32]) -> Result<(), Refusal>
    requires { Tables text.now scratch.now }
    ensures { verdict_of result ≡ and_then (declared (script_in text.now scratch.now)) (typed (script_in text.now scratch.now)) }
{
    declared_verdict(text, scratch)?;
    check_bodies(text, scratch)
}
