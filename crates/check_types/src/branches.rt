// The branch of a label.
ghost use Rattle.read_tables.specs.Roots.{BranchesIn};
ghost use Rattle.read_tables.specs.Whole.{Tables};
ghost use Rattle.check_types.specs.Branches.{BranchIs};

use crate::acting::label_number;
use notation::tables::BRANCHES_AT;

// The process of the label whose apostrophe stands at `at`, among the n branches before the place e.
pub fn branch_of(text: &[u8], scratch: &[u32], at: usize, e: usize, n: usize) -> Option<usize>
    requires { Tables text.now scratch.now × BranchesIn text.now scratch.now e n }
    ensures { BranchIs text.now scratch.now at e n result }
{
    label_number(text, scratch, BRANCHES_AT, at, e, n)
}
