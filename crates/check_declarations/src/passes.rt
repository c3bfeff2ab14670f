// Refusals 6 and 7 over the declarations.
ghost use Rattle.std.specs.Prelude.{◌<◌};
ghost use Rattle.calculus.specs.Declarations.{own_undefined, repeated, undefined};
ghost use Rattle.read_tables.specs.Decode.{tally_in, script_in, proc_declaration, entries_in};
ghost use Rattle.read_tables.specs.Program.{program_in};
ghost use Rattle.read_tables.specs.Whole.{Tables, EntriesIn};
ghost use Rattle.check_declarations.specs.DeclarationFaults.{entries_faults, declaration_faults};
ghost use Rattle.check_declarations.specs.Lowest.{Lowered, least};
ghost use Rattle.check_declarations.specs.Passes.{of_types, of_processes, of_execs};

use crate::faults::{Pass, list_faults, type_faults, undefined_process};
use crate::names::{Names, repeated_names};
use crate::processes::process_faults;
use read_tables::access::{
    declared_process, declared_type, entry, exec_at, exec_count, process_count, type_count,
};

// The types of n signature entries from the place i on.
fn entries_faults(
    text: &[u8],
    scratch: &[u32],
    pass: Pass,
    i: usize,
    n: usize,
    low: Option<usize>,
) -> Option<usize>
    requires { Tables text.now scratch.now × EntriesIn text.now scratch.now i n }
    ensures { Lowered low (entries_faults pass (program_in text.now scratch.now) (entries_in text.now scratch.now i n)) result }
{
    let mut l = low;
    for k in 0..n {
        let e = entry(scratch, i + k);
        l = type_faults(text, scratch, pass, e.number, l);
    }
    l
}

// The process i: its signature's names, its types, its body.
fn signature_faults(
    text: &[u8],
    scratch: &[u32],
    pass: Pass,
    i: usize,
    low: Option<usize>,
) -> Option<usize>
    requires { Tables text.now scratch.now × (i < (tally_in scratch.now).processes) }
    ensures { Lowered low (declaration_faults pass (program_in text.now scratch.now) (proc_declaration text.now scratch.now i)) result }
{
    let d = declared_process(scratch, i);
    let names = Names::Entries(d.first);
    let l = list_faults(text, scratch, pass, names, d.provided + d.used, low);
    let m = entries_faults(text, scratch, pass, d.first, d.provided, l);
    let o = entries_faults(text, scratch, pass, d.first + d.provided, d.used, m);
    process_faults(text, scratch, pass, d.body, o)
}

// All types.
fn types_faults(text: &[u8], scratch: &[u32], pass: Pass, low: Option<usize>) -> Option<usize>
    requires { Tables text.now scratch.now }
    ensures { Lowered low (of_types (declaration_faults pass (program_in text.now scratch.now)) text.now scratch.now) result }
{
    let n = type_count(scratch);
    let mut l = low;
    for i in 0..n {
        let t = declared_type(scratch, i);
        l = type_faults(text, scratch, pass, t.number, l);
    }
    l
}

// All processes.
fn processes_faults(text: &[u8], scratch: &[u32], pass: Pass, low: Option<usize>) -> Option<usize>
    requires { Tables text.now scratch.now }
    ensures { Lowered low (of_processes (declaration_faults pass (program_in text.now scratch.now)) text.now scratch.now) result }
{
    let n = process_count(scratch);
    let mut l = low;
    for i in 0..n {
        l = signature_faults(text, scratch, pass, i, l);
    }
    l
}

// All execs: a process that is not defined.
fn undefined_execs(text: &[u8], scratch: &[u32], low: Option<usize>) -> Option<usize>
    requires { Tables text.now scratch.now }
    ensures { Lowered low (of_execs (own_undefined (program_in text.now scratch.now)) text.now scratch.now) result }
{
    let n = exec_count(scratch);
    let mut l = low;
    for i in 0..n {
        let at = exec_at(scratch, i);
        l = undefined_process(text, scratch, at, l);
    }
    l
}

// Refusal 6: where a name comes a second time.
pub(crate) fn repeated_at(text: &[u8], scratch: &[u32]) -> Option<usize>
    requires { Tables text.now scratch.now }
    ensures { Lowered least (repeated (script_in text.now scratch.now)) result }
{
    let types = type_count(scratch);
    let processes = process_count(scratch);
    let l = repeated_names(text, scratch, Names::Types, types, None);
    let m = repeated_names(text, scratch, Names::Processes, processes, l);
    let o = types_faults(text, scratch, Pass::Repeated, m);
    processes_faults(text, scratch, Pass::Repeated, o)
}

// Refusal 7: where a type or a process is not defined.
pub(crate) fn undefined_at(text: &[u8], scratch: &[u32]) -> Option<usize>
    requires { Tables text.now scratch.now }
    ensures { Lowered least (undefined (script_in text.now scratch.now)) result }
{
    let l = types_faults(text, scratch, Pass::Undefined, None);
    let m = processes_faults(text, scratch, Pass::Undefined, l);
    undefined_execs(text, scratch, m)
}
