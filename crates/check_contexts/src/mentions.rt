// Which of the names that are held a process mentions, in one walk: "A name bound anew inside a half is no mention of a held one."
ghost use Rattle.std.specs.Prelude.{◌≡◌, ◌<◌};
ghost use Rattle.calculus.specs.Mentions.{mentions, branches_mention};
ghost use Rattle.read_tables.specs.Decode.{process_in};
ghost use Rattle.read_tables.specs.Roots.{ProcessIn, BranchesIn, branches_in};
ghost use Rattle.read_tables.specs.Whole.{Tables};
ghost use Rattle.check_contexts.specs.Initials.{Initials};
ghost use Rattle.check_contexts.specs.Marks.{Marked, Hidden};
ghost use Rattle.check_contexts.specs.Mentioned.{CallsFine, has_first_name, has_second_name, acts_on, binds_anew, has_halves, has_last, last_part, InnerIn, inner_mentions};

use crate::initials::INITIALS;
use crate::marks::Marks;
use crate::names::{hide_name, mark_call, mark_name};
use notation::kinds;
use notation::reading::TermNode;
use notation::script::Script;
use read_tables::access::{branch, term_node};
use run_words::records::HELD_WORDS;

// The first number of a node of this kind is where a name stands, and likewise the second.
fn has_first_name(kind: usize) -> bool
    ensures { result ≡ has_first_name kind }
{
    kind != 0 && kind != kinds::SPAWN && kind <= kinds::FWD
}

fn has_second_name(kind: usize) -> bool
    ensures { result ≡ has_second_name kind }
{
    matches!(kind, kinds::SEND_CHANNEL | kinds::FWD)
}

// Marks the names on which a node acts: those that the node itself mentions.
fn mark_acted(
    text: &[u8],
    ends: &[u32; HELD_WORDS],
    initials: &[bool; INITIALS],
    n: usize,
    node: TermNode,
    sought: Marks,
    m: Marks,
) -> Marks
    requires { CallsFine text.now node × Initials text.now ends.now n initials.now }
    ensures { Marked text.now ends.now n sought (acts_on text.now node) m result }
{
    if node.kind == kinds::CALL {
        return mark_call(text, ends, initials, n, node.second, sought, m);
    }
    let mut r = m;
    if has_first_name(node.kind) {
        r = mark_name(text, ends, initials, n, node.first, sought, r);
    }
    if has_second_name(node.kind) {
        r = mark_name(text, ends, initials, n, node.second, sought, r);
    }
    r
}

// The names that a node binds anew, in all of its parts, are sought no more.
fn hide_bound(
    text: &[u8],
    ends: &[u32; HELD_WORDS],
    initials: &[bool; INITIALS],
    n: usize,
    node: TermNode,
    sought: Marks,
) -> Marks
    requires { Initials text.now ends.now n initials.now }
    ensures { Hidden text.now ends.now n (binds_anew text.now node) sought result }
{
    if node.kind == kinds::SPAWN {
        return hide_name(text, ends, initials, n, node.at, sought);
    }
    if node.kind == kinds::RECV_CHANNEL {
        return hide_name(text, ends, initials, n, node.second, sought);
    }
    sought
}

// A node of this kind has two processes for parts.
fn has_halves(kind: usize) -> bool
    ensures { result ≡ has_halves kind }
{
    matches!(kind, kinds::SPAWN | kinds::TRY)
}

// The last of a node's parts is its third number: it has one, and no branches.
fn has_last(kind: usize) -> bool
    ensures { result ≡ has_last kind }
{
    !matches!(kind, kinds::RECV_LABEL | kinds::FWD | kinds::CALL)
}

// The pointer of what follows a node; nothing follows one that ends or has branches.
fn last_part(node: TermNode) -> usize
    ensures { result ≡ last_part node }
{
    if has_last(node.kind) {
        node.third
    } else {
        Script::PROCESS_TERMS
    }
}

// Marks, of the first n names, those that are sought and that the process at the pointer p mentions.
#[cycle(mark_branches_mark_inner_mark_process)]
pub(crate) fn mark_process(
    text: &[u8],
    scratch: &[u32],
    ends: &[u32; HELD_WORDS],
    initials: &[bool; INITIALS],
    n: usize,
    p: usize,
    sought: Marks,
    m: Marks,
) -> Marks
    requires { Tables text.now scratch.now × Initials text.now ends.now n initials.now × ProcessIn text.now scratch.now p }
    ensures { Marked text.now ends.now n sought (mentions (process_in text.now scratch.now p)) m result }
{
    let mut at = p;
    let mut left = sought;
    let mut r = m;
    while at < Script::PROCESS_TERMS {
        let node = term_node(scratch, at);
        r = mark_acted(text, ends, initials, n, node, left, r);
        left = hide_bound(text, ends, initials, n, node, left);
        r = mark_inner(text, scratch, ends, initials, n, node, left, r);
        at = last_part(node);
    }
    r
}

// The same of what a node has in brackets: its first half, or its branches.
#[cycle(mark_branches_mark_inner_mark_process)]
fn mark_inner(
    text: &[u8],
    scratch: &[u32],
    ends: &[u32; HELD_WORDS],
    initials: &[bool; INITIALS],
    n: usize,
    node: TermNode,
    sought: Marks,
    m: Marks,
) -> Marks
    requires { Tables text.now scratch.now × Initials text.now ends.now n initials.now × InnerIn text.now scratch.now node }
    ensures { Marked text.now ends.now n sought (inner_mentions text.now scratch.now node) m result }
{
    if node.kind == kinds::RECV_LABEL {
        return mark_branches(
            text,
            scratch,
            ends,
            initials,
            n,
            node.second,
            node.third,
            sought,
            m,
        );
    }
    if has_halves(node.kind) {
        return mark_process(text, scratch, ends, initials, n, node.second, sought, m);
    }
    m
}

// The same of `count` branches before the place e.
#[cycle(mark_branches_mark_inner_mark_process)]
fn mark_branches(
    text: &[u8],
    scratch: &[u32],
    ends: &[u32; HELD_WORDS],
    initials: &[bool; INITIALS],
    n: usize,
    e: usize,
    count: usize,
    sought: Marks,
    m: Marks,
) -> Marks
    requires { Tables text.now scratch.now × Initials text.now ends.now n initials.now × BranchesIn text.now scratch.now e count }
    ensures { Marked text.now ends.now n sought (branches_mention (branches_in text.now scratch.now e count)) m result }
{
    let mut r = m;
    for k in 0..count {
        let b = branch(scratch, e - k);
        r = mark_process(text, scratch, ends, initials, n, b.number, sought, r);
    }
    r
}
