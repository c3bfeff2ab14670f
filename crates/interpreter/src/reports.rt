// Reports: the numbers of the outside channels still open, rising.
ghost use Rattle.std.specs.Prelude.{◌≤◌, length};
ghost use Rattle.notation.specs.Limits.{run_words};
ghost use Rattle.run_words.specs.Raw.{raw_in, Bounded};
ghost use Rattle.check_accepted.specs.Texts.{TextIn};
ghost use Rattle.interpreter.specs.Listing.{Listed};
ghost use Rattle.interpreter.specs.Reporting.{numbers_of, ReportsIn};

use crate::inside::holds_run;
use calculus::answers::Report;
use notation::refusal::Refusal;
use notation::script::Script;
use run_words::outside::{outside_at, outside_count};

// The numbers, in the order of the run, in which they rise; zeros after them.
fn list_numbers(run: &[u32]) -> [u32; Script::OUTSIDE_NUMBERS]
    requires { (run_words ≤ length run.now) × Bounded (raw_in run.now) }
    ensures { Listed result (numbers_of (raw_in run.now)) }
{
    let mut numbers = [0u32; Script::OUTSIDE_NUMBERS];
    let n = outside_count(run);
    for k in 0..n {
        let o = outside_at(run, k);
        numbers[k] = o.number;
    }
    numbers
}

pub(crate) fn report_in(text: &[u8], tables: &[u32], run: &[u32]) -> Result<Report, Refusal>
    requires { TextIn text.now tables.now }
    ensures { ReportsIn text.now run.now result }
{
    holds_run(text, tables, run)?;
    let numbers = list_numbers(run);
    let n = outside_count(run);
    Ok(Report {
        open: n as u32,
        numbers,
    })
}
