// Processes that are typed alike: of many that wait before one body, the body is checked once.
ghost use Rattle.std.specs.Prelude.{◌≡◌, true, ◌≤◌};
ghost use Rattle.notation.specs.Limits.{held_limit};
ghost use Rattle.run_words.specs.Values.{end_in, held_in, process_in};
ghost use Rattle.run_wellformed.specs.Alike.{EndsMatch, HeldMatch, TypedAlike};

use run_words::held::end_at;
use run_words::records::{End, Held, Process};

// Whether two ends have the same name, side and type; their channels may differ.
fn ends_match(e: End, f: End) -> bool
    ensures { result ≡ true → EndsMatch (end_in e) (end_in f) }
{
    e.name == f.name && e.side == f.side && e.node == f.node
}

// The same of as many ends each.
fn held_match(h: Held, g: Held) -> bool
    requires { (h.count ≤ held_limit) × (g.count ≡ h.count) }
    ensures { result ≡ true → HeldMatch (held_in h) (held_in g) }
{
    for k in 0..h.count {
        let e = end_at(h, k);
        let f = end_at(g, k);
        if !ends_match(e, f) {
            return false;
        }
    }
    true
}

// Whether two processes do the same, and hold matching ends.
pub(crate) fn typed_alike(p: Process, q: Process) -> bool
    requires { (p.held.count ≤ held_limit) × (q.held.count ≤ held_limit) }
    ensures { result ≡ true → TypedAlike (process_in p) (process_in q) }
{
    p.kind == q.kind
        && p.pointer == q.pointer
        && p.held.count == q.held.count
        && held_match(p.held, q.held)
}
