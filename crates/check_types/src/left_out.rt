// The labels of a type for which there is no branch, by their numbers.
ghost use Rattle.notation.specs.Tree.{plains};
ghost use Rattle.calculus.specs.Warnings.{left_out};
ghost use Rattle.read_tables.specs.Roots.{AlternativesIn, alternatives_in, BranchesIn, branches_in};
ghost use Rattle.read_tables.specs.Whole.{Tables};
ghost use Rattle.check_types.specs.LeftOut.{out_in, own_left_out};
ghost use Rattle.check_types.specs.Sought.{Sought};

use crate::branches::branch_of;
use read_tables::access::alternative;
use std::ops::ControlFlow;

// A search breaks with where the label's apostrophe stands; where it goes on, all were passed over, and so many are still to be.

// The label whose apostrophe stands at `at`, where there is no branch for it among the m before the place d: it is the only one.
fn own_left_out(
    text: &[u8],
    scratch: &[u32],
    at: usize,
    d: usize,
    m: usize,
    k: usize,
) -> ControlFlow<usize, usize>
    requires { Tables text.now scratch.now × BranchesIn text.now scratch.now d m }
    ensures { Sought (own_left_out text.now scratch.now at d m) k (out_in text.now result) }
{
    if branch_of(text, scratch, at, d, m).is_some() {
        return ControlFlow::Continue(k);
    }
    if k == 0 {
        return ControlFlow::Break(at);
    }
    ControlFlow::Continue(k - 1)
}

// The label k of those, among the n alternatives before the place e, that the m branches before the place d leave out.
pub fn left_out(
    text: &[u8],
    scratch: &[u32],
    e: usize,
    n: usize,
    d: usize,
    m: usize,
    k: usize,
) -> ControlFlow<usize, usize>
    requires { Tables text.now scratch.now × AlternativesIn text.now scratch.now e n × BranchesIn text.now scratch.now d m }
    ensures { Sought (left_out (plains (alternatives_in text.now scratch.now e n)) (branches_in text.now scratch.now d m)) k (out_in text.now result) }
{
    let mut left = k;
    for i in 0..n {
        let a = alternative(scratch, e - i);
        left = own_left_out(text, scratch, a.at, d, m, left)?;
    }
    ControlFlow::Continue(left)
}
