// Types compared by the trees that they unfold to: nodes that must be equal are joined in classes, until two heads differ or none waits.
ghost use Rattle.std.specs.Prelude.{◌≡◌, get_or};
ghost use Rattle.calculus.specs.SameType.{same_type};
ghost use Rattle.read_tables.specs.Program.{plain_in, program_in};
ghost use Rattle.read_tables.specs.Roots.{TypeIn, AlternativesIn};
ghost use Rattle.read_tables.specs.Whole.{Tables};
ghost use Rattle.check_types.specs.Meeting.{TypesJoined, LabelMet, LabelsMet, HeadsMet, PartsIn};
ghost use Rattle.check_types.specs.Classes.{weights};
ghost use Rattle.check_types.specs.Comparing.{Turned, Tells};

use crate::acting::{labelled, standing};
use crate::classes::{State, first_waiting, join, mark, own_each};
use notation::kinds;
use notation::reading::TypeNode;
use notation::script::Script;
use notation::token::names_equal;
use read_tables::access::{alternative, type_node};

// The nodes that the types i and j stand for are one class.
fn join_types(
    text: &[u8],
    scratch: &[u32],
    representatives: &mut [u16; Script::TYPE_TERMS],
    states: &mut [State; Script::TYPE_TERMS],
    i: usize,
    j: usize,
)
    requires { Tables text.now scratch.now × TypeIn text.now scratch.now i × TypeIn text.now scratch.now j }
    ensures { TypesJoined text.now scratch.now i j representatives.old (weights states.old) representatives.new (weights states.new) }
{
    let here = standing(text, scratch, i);
    let there = standing(text, scratch, j);
    join(representatives, states, here, there);
}

// The label at `at` leads from x and y to nodes that are then one class, or nowhere.
fn meet_label(
    text: &[u8],
    scratch: &[u32],
    representatives: &mut [u16; Script::TYPE_TERMS],
    states: &mut [State; Script::TYPE_TERMS],
    at: usize,
    x: TypeNode,
    y: TypeNode,
) -> bool
    requires { Tables text.now scratch.now × AlternativesIn text.now scratch.now x.first x.second × AlternativesIn text.now scratch.now y.first y.second }
    ensures { LabelMet text.now scratch.now at x y representatives.old (weights states.old) result representatives.new (weights states.new) }
{
    let here = labelled(text, scratch, at, x.first, x.second);
    let there = labelled(text, scratch, at, y.first, y.second);
    let Some(a) = here else {
        return there.is_none();
    };
    let Some(b) = there else {
        return false;
    };
    join_types(text, scratch, representatives, states, a, b);
    true
}

// Each label of the n alternatives before the place e does.
fn meet_labels(
    text: &[u8],
    scratch: &[u32],
    representatives: &mut [u16; Script::TYPE_TERMS],
    states: &mut [State; Script::TYPE_TERMS],
    e: usize,
    n: usize,
    x: TypeNode,
    y: TypeNode,
) -> bool
    requires { Tables text.now scratch.now × AlternativesIn text.now scratch.now e n × AlternativesIn text.now scratch.now x.first x.second × AlternativesIn text.now scratch.now y.first y.second }
    ensures { LabelsMet text.now scratch.now e n x y representatives.old (weights states.old) result representatives.new (weights states.new) }
{
    for k in 0..n {
        let a = alternative(scratch, e - k);
        if !meet_label(text, scratch, representatives, states, a.at, x, y) {
            return false;
        }
    }
    true
}

// The nodes x and y have one mark, and their parts are then one class each.
fn meet_heads(
    text: &[u8],
    scratch: &[u32],
    representatives: &mut [u16; Script::TYPE_TERMS],
    states: &mut [State; Script::TYPE_TERMS],
    x: TypeNode,
    y: TypeNode,
) -> bool
    requires { Tables text.now scratch.now × PartsIn text.now scratch.now x × PartsIn text.now scratch.now y }
    ensures { HeadsMet text.now scratch.now x y representatives.old (weights states.old) result representatives.new (weights states.new) }
{
    let kind = x.kind;
    if kind != y.kind {
        return false;
    }
    if kind == kinds::UNIT {
        return true;
    }
    if kind == kinds::NAMED {
        return names_equal(text, x.second, y.second);
    }
    if kind <= kinds::LOLLI {
        join_types(text, scratch, representatives, states, x.first, y.first);
        join_types(text, scratch, representatives, states, x.second, y.second);
        return true;
    }
    if !meet_labels(
        text,
        scratch,
        representatives,
        states,
        x.first,
        x.second,
        x,
        y,
    ) {
        return false;
    }
    meet_labels(
        text,
        scratch,
        representatives,
        states,
        y.first,
        y.second,
        x,
        y,
    )
}

// The waiting node i compared with its representative.
fn turn(
    text: &[u8],
    scratch: &[u32],
    representatives: &mut [u16; Script::TYPE_TERMS],
    states: &mut [State; Script::TYPE_TERMS],
    i: usize,
) -> bool
    requires { Tables text.now scratch.now × TypeIn text.now scratch.now i × TypeIn text.now scratch.now (get_or representatives.old i 0) }
    ensures { Turned text.now scratch.now i representatives.old (weights states.old) result representatives.new (weights states.new) }
{
    let j = usize::from(representatives[i]);
    let x = type_node(scratch, i);
    let y = type_node(scratch, j);
    if !meet_heads(text, scratch, representatives, states, x, y) {
        return false;
    }
    mark(states, i, State::Done);
    true
}

// The types at the nodes a and b unfold to the same tree.
fn same_tree(text: &[u8], scratch: &[u32], a: usize, b: usize) -> bool
    requires { Tables text.now scratch.now × TypeIn text.now scratch.now a × TypeIn text.now scratch.now b }
    ensures { Tells text.now scratch.now a b result }
{
    let mut representatives = [0u16; Script::TYPE_TERMS];
    let mut states = [State::Own; Script::TYPE_TERMS];
    own_each(&mut representatives);
    join(&mut representatives, &mut states, a, b);
    while let Some(i) = first_waiting(&states) {
        if !turn(text, scratch, &mut representatives, &mut states, i) {
            return false;
        }
    }
    true
}

// The types a and b are equal: "when they unfold, name by name and without end, to the same tree". Where they stand for one node, no classes are made.
pub fn same_type(text: &[u8], scratch: &[u32], a: usize, b: usize) -> bool
    requires { Tables text.now scratch.now × TypeIn text.now scratch.now a × TypeIn text.now scratch.now b }
    ensures { result ≡ same_type (program_in text.now scratch.now).types (plain_in text.now scratch.now a) (plain_in text.now scratch.now b) }
{
    let here = standing(text, scratch, a);
    let there = standing(text, scratch, b);
    if here == there {
        return true;
    }
    same_tree(text, scratch, here, there)
}
