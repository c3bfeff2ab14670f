// Whether branches fit the alternatives of a type: each has a label of the type.
ghost use Rattle.std.specs.Prelude.{◌≡◌};
ghost use Rattle.notation.specs.Tree.{plains};
ghost use Rattle.calculus.specs.Checking.{fitting};
ghost use Rattle.read_tables.specs.Roots.{AlternativesIn, alternatives_in, BranchesIn, branches_in};
ghost use Rattle.read_tables.specs.Whole.{Tables};

use crate::acting::labelled;
use read_tables::access::branch;

// The m branches before the place d fit the n alternatives before the place e.
pub fn labels_fit(text: &[u8], scratch: &[u32], e: usize, n: usize, d: usize, m: usize) -> bool
    requires { Tables text.now scratch.now × AlternativesIn text.now scratch.now e n × BranchesIn text.now scratch.now d m }
    ensures { result ≡ fitting (plains (alternatives_in text.now scratch.now e n)) (branches_in text.now scratch.now d m) }
{
    for k in 0..m {
        let b = branch(scratch, d - k);
        if labelled(text, scratch, b.at, e, n).is_none() {
            return false;
        }
    }
    true
}
