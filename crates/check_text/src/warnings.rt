// A script's warnings, by their numbers: its processes in text order, in each the labels that its recvs leave out.
ghost use Rattle.std.specs.Prelude.{◌≡◌};
ghost use Rattle.std.proofs.Math.ListN.{get_elem?};
ghost use Rattle.calculus.specs.Checking.{typed};
ghost use Rattle.calculus.specs.Verdict.{fine};
ghost use Rattle.calculus.specs.Warnings.{warnings, TellsOf};
ghost use Rattle.read_tables.specs.Decode.{script_in};
ghost use Rattle.read_tables.specs.Whole.{Tables};

use crate::bodies::signature_held;
use calculus::answers::Missing;
use check_processes::missing::missing_label;
use read_tables::access::{declared_process, process_count};
use std::ops::ControlFlow;

// The warning k of the script in the tables, in which nothing is at fault.
pub fn warning(text: &[u8], scratch: &[u32], k: usize) -> Option<Missing>
    requires { Tables text.now scratch.now × (typed (script_in text.now scratch.now) ≡ fine) }
    ensures { TellsOf text.now (get_elem? (warnings (script_in text.now scratch.now)) k) result }
{
    let n = process_count(scratch);
    let mut left = k;
    for i in 0..n {
        let e = declared_process(scratch, i);
        let h = signature_held(text, scratch, e);
        match missing_label(text, scratch, h, e.body, left) {
            ControlFlow::Break(unmet) => {
                return Some(Missing {
                    process: e.at,
                    channel: unmet.channel,
                    label: unmet.label,
                });
            }
            ControlFlow::Continue(more) => left = more,
        }
    }
    None
}
