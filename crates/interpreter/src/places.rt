// Places: whether the step at each is open.
ghost use Rattle.calculus.specs.Runs.{places};
ghost use Rattle.calculus.specs.WellFormed.{WellFormed};
ghost use Rattle.read_tables.specs.Program.{program_in};
ghost use Rattle.run_alone.specs.Run.{config_in, RunOf};
ghost use Rattle.run_steps.specs.Dispatch.{SmallSignatures};
ghost use Rattle.check_accepted.specs.Texts.{TextIn};
ghost use Rattle.interpreter.specs.Listing.{Listed};
ghost use Rattle.interpreter.specs.Surveying.{SurveysIn};

use crate::inside::holds_run;
use calculus::answers::Places;
use notation::refusal::Refusal;
use notation::script::Script;
use run_steps::trials::openness_at;
use run_words::processes::count;

// What the step at each place is; zeros after them.
fn list_steps(text: &[u8], tables: &[u32], run: &[u32]) -> [u32; Script::PROCESS_PLACES]
    requires run_of { RunOf text.now tables.now run.now }
    requires well_formed { WellFormed (program_in text.now tables.now) (config_in text.now tables.now run.now) }
    requires small_signatures { SmallSignatures (program_in text.now tables.now) }
    ensures { Listed result (places (program_in text.now tables.now) (config_in text.now tables.now run.now)) }
{
    let mut steps = [0u32; Script::PROCESS_PLACES];
    let n = count(run);
    for k in 0..n {
        steps[k] = openness_at(text, tables, run, k);
    }
    steps
}

pub(crate) fn places_in(text: &[u8], tables: &[u32], run: &[u32]) -> Result<Places, Refusal>
    requires { TextIn text.now tables.now }
    ensures { SurveysIn text.now run.now result }
{
    holds_run(text, tables, run)?;
    let steps = list_steps(text, tables, run);
    let n = count(run);
    Ok(Places {
        processes: n as u32,
        steps,
    })
}
