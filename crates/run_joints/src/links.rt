// Links: each leads to a waiting handler, and each waiting handler is linked by one process.
ghost use Rattle.std.specs.Prelude.{◌≡◌, ◌≤◌, ◌<◌, length};
ghost use Rattle.notation.specs.Limits.{run_words, process_places};
ghost use Rattle.calculus.specs.Named.{every, any_of};
ghost use Rattle.theory_decision.specs.Links.{links_lead, handlers_linked, linked_once, links_apart};
ghost use Rattle.run_words.specs.Raw.{RawProcess, raw_in, link_of, Bounded};
ghost use Rattle.run_joints.specs.Answers.{Answers};
ghost use Rattle.run_joints.specs.Tests.{before};
ghost use Rattle.run_joints.specs.Links.{leads, links_to, linked_if_waiting};

use notation::words::wide;
use run_words::processes::{count, load};
use run_words::records::{UNLINKED, WAITING};

// Whether a link, if it is one, leads to a waiting handler.
fn link_leads(run: &[u32], link: u32) -> bool
    requires run_words_in_bounds { run_words ≤ length run.now }
    requires bounded { Bounded (raw_in run.now) }
    requires link_in_bounds { link ≤ length (raw_in run.now).processes }
    ensures { leads (raw_in run.now).processes (link_of link) ≡ result }
{
    link == UNLINKED || load(run, wide(link) - 1).kind == WAITING
}

// Whether every link leads to a waiting handler.
pub(crate) fn links_lead(run: &[u32]) -> bool
    requires run_words_in_bounds { run_words ≤ length run.now }
    requires bounded { Bounded (raw_in run.now) }
    ensures { Answers result links_lead (raw_in run.now) }
{
    for i in 0..count(run) {
        let p = load(run, i);
        if !link_leads(run, p.link) {
            return false;
        }
    }
    true
}

// Whether a process at one of the first n places links to place h.
fn linked_before(run: &[u32], h: usize, n: usize) -> bool
    requires run_words_in_bounds { run_words ≤ length run.now }
    requires bounded { Bounded (raw_in run.now) }
    requires h_lt_process_places { (h < process_places) × (n ≤ length (raw_in run.now).processes) }
    ensures { any_of (links_to h) (before n (raw_in run.now).processes) ≡ result }
{
    for i in (0..n).rev() {
        let p = load(run, i);
        if wide(p.link) == h + 1 {
            return true;
        }
    }
    false
}

// Whether a process of a kind at a place, if it waits, is linked.
fn handler_linked(run: &[u32], i: usize, kind: u32) -> bool
    requires run_words_in_bounds { run_words ≤ length run.now }
    requires bounded { Bounded (raw_in run.now) }
    requires i_lt_process_places { (i < process_places) × (kind < 3) }
    ensures { linked_if_waiting (raw_in run.now).processes i kind ≡ result }
{
    kind != WAITING || linked_before(run, i, count(run))
}

// Whether every waiting handler is linked.
pub(crate) fn handlers_linked(run: &[u32]) -> bool
    requires run_words_in_bounds { run_words ≤ length run.now }
    requires bounded { Bounded (raw_in run.now) }
    ensures { Answers result handlers_linked (raw_in run.now) }
{
    for i in 0..count(run) {
        let p = load(run, i);
        if !handler_linked(run, i, p.kind) {
            return false;
        }
    }
    true
}

// Whether no process at one of the first n places has this link.
fn link_new(run: &[u32], link: u32, n: usize) -> bool
    requires run_words_in_bounds { run_words ≤ length run.now }
    requires bounded { Bounded (raw_in run.now) }
    requires link_le_process_places { (link ≤ process_places) × (n ≤ length (raw_in run.now).processes) }
    ensures { every (λ (q : RawProcess). links_apart (link_of link) q.link) (before n (raw_in run.now).processes) ≡ result }
{
    link == UNLINKED || !linked_before(run, wide(link) - 1, n)
}

// Whether no two processes have one link.
pub(crate) fn linked_once(run: &[u32]) -> bool
    requires run_words_in_bounds { run_words ≤ length run.now }
    requires bounded { Bounded (raw_in run.now) }
    ensures { Answers result linked_once (raw_in run.now) }
{
    for i in 0..count(run) {
        let p = load(run, i);
        if !link_new(run, p.link, i) {
            return false;
        }
    }
    true
}
