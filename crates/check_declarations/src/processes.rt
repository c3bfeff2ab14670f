// Refusals 6 and 7: the walk over processes.
ghost use Rattle.std.specs.Prelude.{◌≡◌, ℕ, ◌<◌};
ghost use Rattle.notation.specs.Reader.{name_in};
ghost use Rattle.notation.specs.Limits.{process_term_limit};
ghost use Rattle.read_tables.specs.Access.{TermOf};
ghost use Rattle.read_tables.specs.Program.{program_in};
ghost use Rattle.read_tables.specs.Roots.{ProcessIn, BranchesIn, branches_in};
ghost use Rattle.read_tables.specs.Whole.{Tables};
ghost use Rattle.check_declarations.specs.ProcessFaults.{call_faults, parts_of, followed_at, node_faults, InnerIn, inner_faults, branches_faults, process_faults_in};
ghost use Rattle.check_declarations.specs.Lowest.{Lowered};

use crate::faults::{Pass, list_faults, type_faults, undefined_process};
use crate::names::Names;
use notation::kinds;
use notation::reading::TermNode;
use notation::script::Script;
use read_tables::access::{branch, term_node};

// Which parts of a node are processes: none, the third, the second and the third, or those of its branches.
#[derive(Clone, Copy)]
pub enum Parts {
    Leaf,
    Third,
    Both,
    Branches,
}

fn parts_of(kind: usize) -> Parts
    ensures { result ≡ parts_of kind }
{
    if kind == kinds::SPAWN {
        return Parts::Both;
    }
    if kind == kinds::RECV_LABEL {
        return Parts::Branches;
    }
    if kind == kinds::FWD {
        return Parts::Leaf;
    }
    if kind == kinds::CALL {
        return Parts::Leaf;
    }
    if kind == kinds::TRY {
        return Parts::Both;
    }
    Parts::Third
}

// The pointer of what follows a node with these parts; nothing follows one that ends or has branches.
fn what_follows(parts: Parts, n: TermNode) -> usize
    ensures { result ≡ followed_at parts n }
{
    match parts {
        Parts::Leaf => Script::PROCESS_TERMS,
        Parts::Third => n.third,
        Parts::Both => n.third,
        Parts::Branches => Script::PROCESS_TERMS,
    }
}

// A call of the process whose name is at `at`.
fn call_faults(
    text: &[u8],
    scratch: &[u32],
    pass: Pass,
    at: usize,
    low: Option<usize>,
) -> Option<usize>
    requires { Tables text.now scratch.now }
    ensures { Lowered low (call_faults pass (program_in text.now scratch.now) (name_in text.now at)) result }
{
    match pass {
        Pass::Repeated => low,
        Pass::Undefined => undefined_process(text, scratch, at, low),
    }
}

// What a node has itself: a spawn its type, a branch list its labels, a call its name.
fn node_faults(
    text: &[u8],
    scratch: &[u32],
    pass: Pass,
    n: TermNode,
    low: Option<usize>,
) -> Option<usize>
    requires { Tables text.now scratch.now × ((p : ℕ) × (p < process_term_limit) × ProcessIn text.now scratch.now p × TermOf scratch.now p n) }
    ensures { Lowered low (node_faults text.now scratch.now pass n) result }
{
    if n.kind == kinds::SPAWN {
        return type_faults(text, scratch, pass, n.first, low);
    }
    if n.kind == kinds::RECV_LABEL {
        let list = Names::Branches(n.second);
        return list_faults(text, scratch, pass, list, n.third, low);
    }
    if n.kind == kinds::CALL {
        return call_faults(text, scratch, pass, n.first, low);
    }
    low
}

// What a node with these parts has in brackets: a first half, or branches.
#[cycle(branches_faults_inner_faults_process_faults)]
fn inner_faults(
    text: &[u8],
    scratch: &[u32],
    pass: Pass,
    parts: Parts,
    n: TermNode,
    low: Option<usize>,
) -> Option<usize>
    requires { Tables text.now scratch.now × InnerIn text.now scratch.now parts n }
    ensures { Lowered low (inner_faults text.now scratch.now pass parts n) result }
{
    match parts {
        Parts::Leaf => low,
        Parts::Third => low,
        Parts::Both => process_faults(text, scratch, pass, n.second, low),
        Parts::Branches => branches_faults(text, scratch, pass, n.second, n.third, low),
    }
}

// The processes of `count` branches before the place e.
#[cycle(branches_faults_inner_faults_process_faults)]
fn branches_faults(
    text: &[u8],
    scratch: &[u32],
    pass: Pass,
    e: usize,
    count: usize,
    low: Option<usize>,
) -> Option<usize>
    requires { Tables text.now scratch.now × BranchesIn text.now scratch.now e count }
    ensures { Lowered low (branches_faults pass (program_in text.now scratch.now) (branches_in text.now scratch.now e count)) result }
{
    let mut l = low;
    for k in 0..count {
        let b = branch(scratch, e - k);
        l = process_faults(text, scratch, pass, b.number, l);
    }
    l
}

// The process at the pointer p: what follows a node is the next turn.
#[cycle(branches_faults_inner_faults_process_faults)]
pub(crate) fn process_faults(
    text: &[u8],
    scratch: &[u32],
    pass: Pass,
    p: usize,
    low: Option<usize>,
) -> Option<usize>
    requires { Tables text.now scratch.now × ProcessIn text.now scratch.now p }
    ensures { Lowered low (process_faults_in text.now scratch.now pass p) result }
{
    let mut at = p;
    let mut l = low;
    while at < Script::PROCESS_TERMS {
        let n = term_node(scratch, at);
        let parts = parts_of(n.kind);
        l = node_faults(text, scratch, pass, n, l);
        l = inner_faults(text, scratch, pass, parts, n, l);
        at = what_follows(parts, n);
    }
    l
}
