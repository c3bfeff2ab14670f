// Whether joints close a circle: places that are joined get one label, so a joint of places with one label closes a circle.
ghost use Rattle.std.specs.Prelude.{◌≡◌, ◌≤◌, ◌<◌, [], ◌∷◌, length, get_or};
ghost use Rattle.notation.specs.Limits.{run_words, held_limit, process_places};
ghost use Rattle.calculus.specs.Forest.{link_joint};
ghost use Rattle.theory_decision.specs.Circles.{relabelled};
ghost use Rattle.run_words.specs.Raw.{raw_in, link_of, Bounded, side_radix};
ghost use Rattle.run_words.specs.Values.{Moved, end_in, held_in, process_in};
ghost use Rattle.run_joints.specs.Answers.{Answers};
ghost use Rattle.run_joints.specs.Circles.{end_joint, held_joints, process_joints, joints_from, circle_free, Labelled, Joined};

use notation::script::Script;
use notation::words::wide;
use run_words::far::far_end;
use run_words::held::end_at;
use run_words::processes::{count, load};
use run_words::records::{End, Far, Held, PROVIDED, Process, UNLINKED, USED};

// Each place has its own label.
fn own_labels() -> [u32; Script::PROCESS_PLACES]
    ensures { Labelled result (λ x. x) }
{
    let mut labels = [0u32; Script::PROCESS_PLACES];
    for k in 0..Script::PROCESS_PLACES {
        labels[k] = k as u32;
    }
    labels
}

// The label b becomes a.
fn relabel(labels: &mut [u32; Script::PROCESS_PLACES], a: u32, b: u32)
    ensures { Moved labels.old labels.new 0 process_places (relabelled a b (λ x. get_or labels.old x 0)) }
{
    for label in labels.iter_mut() {
        if *label == b {
            *label = a;
        }
    }
}

// Joins two places: whether they had two labels.
fn join(labels: &mut [u32; Script::PROCESS_PLACES], i: usize, j: usize) -> bool
    requires { (i < process_places) × (j < process_places) }
    ensures { Joined labels.old labels.new ((i, j) ∷ []) result }
{
    let a = labels[i];
    let b = labels[j];
    if a == b {
        return false;
    }
    relabel(labels, a, b);
    true
}

// Joins a place to the far end of an end that it holds, if it provides it to a process.
fn join_end(labels: &mut [u32; Script::PROCESS_PLACES], run: &[u32], i: usize, e: End) -> bool
    requires run_words_in_bounds { run_words ≤ length run.now }
    requires bounded { Bounded (raw_in run.now) }
    requires i_lt_process_places { (i < process_places) × (e.side < side_radix) }
    ensures { Joined labels.old labels.new (end_joint (raw_in run.now) i (end_in e)) result }
{
    if e.side == USED {
        return true;
    }
    match far_end(run, e.channel, PROVIDED) {
        Far::Process(j, _) => join(labels, i, j),
        Far::Outside(_) | Far::GivenUp => true,
    }
}

// Joins a place by what it holds.
fn join_held(labels: &mut [u32; Script::PROCESS_PLACES], run: &[u32], i: usize, h: Held) -> bool
    requires run_words_in_bounds { run_words ≤ length run.now }
    requires bounded { Bounded (raw_in run.now) }
    requires i_lt_process_places { (i < process_places) × (h.count ≤ held_limit) }
    ensures { Joined labels.old labels.new (held_joints (raw_in run.now) i (held_in h)) result }
{
    for k in 0..h.count {
        let e = end_at(h, k);
        if !join_end(labels, run, i, e) {
            return false;
        }
    }
    true
}

// Joins a place by its link.
fn join_link(labels: &mut [u32; Script::PROCESS_PLACES], i: usize, link: u32) -> bool
    requires { (i < process_places) × (link ≤ process_places) }
    ensures { Joined labels.old labels.new (link_joint i (link_of link)) result }
{
    if link == UNLINKED {
        return true;
    }
    join(labels, i, wide(link) - 1)
}

// Joins a place by what its process holds, then by its link.
fn join_process(
    labels: &mut [u32; Script::PROCESS_PLACES],
    run: &[u32],
    i: usize,
    p: Process,
) -> bool
    requires run_words_in_bounds { run_words ≤ length run.now }
    requires bounded { Bounded (raw_in run.now) }
    requires i_lt_process_places { (i < process_places) × (p.link ≤ process_places) × (p.held.count ≤ held_limit) }
    ensures { Joined labels.old labels.new (process_joints (raw_in run.now) i (process_in p)) result }
{
    join_held(labels, run, i, p.held) && join_link(labels, i, p.link)
}

// Joins the places, each by its process.
fn join_all(labels: &mut [u32; Script::PROCESS_PLACES], run: &[u32]) -> bool
    requires run_words_in_bounds { run_words ≤ length run.now }
    requires bounded { Bounded (raw_in run.now) }
    ensures { Joined labels.old labels.new (joints_from (raw_in run.now) 0 (raw_in run.now).processes) result }
{
    for i in 0..count(run) {
        let p = load(run, i);
        if !join_process(labels, run, i, p) {
            return false;
        }
    }
    true
}

// Whether the joints form a forest.
pub(crate) fn forest(run: &[u32]) -> bool
    requires run_words_in_bounds { run_words ≤ length run.now }
    requires bounded { Bounded (raw_in run.now) }
    ensures { Answers result circle_free (raw_in run.now) }
{
    let mut labels = own_labels();
    join_all(&mut labels, run)
}
