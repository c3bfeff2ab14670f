// Type nodes in classes: each node has a representative, a node of its class at most as great, and a state.
ghost use Rattle.std.specs.Prelude.{◌≡◌, ◌<◌, length, position};
ghost use Rattle.notation.specs.Limits.{type_term_limit};
ghost use Rattle.trees.specs.Classes.{Relabelled, Joined};
ghost use Rattle.check_types.specs.Classes.{weight, weights, OwnEach, Marked, is_waiting};

use notation::script::Script;

// Its own representative; waits to be compared with its representative; was compared.
#[derive(Clone, Copy, PartialEq, Eq)]
pub enum State {
    Own,
    Waiting,
    Done,
}

// Each node is its own representative.
pub fn own_each(representatives: &mut [u16; Script::TYPE_TERMS])
    ensures { length representatives.old ≡ type_term_limit → OwnEach representatives.new }
{
    for k in 0..Script::TYPE_TERMS {
        representatives[k] = k as u16;
    }
}

// The class of hi goes into that of lo.
fn relabel(representatives: &mut [u16; Script::TYPE_TERMS], hi: u16, lo: u16)
    ensures { length representatives.old ≡ type_term_limit → Relabelled type_term_limit hi lo representatives.old representatives.new }
{
    for representative in representatives.iter_mut() {
        // Each is stored, so that the compiler goes over many at a time.
        *representative = if *representative == hi {
            lo
        } else {
            *representative
        };
    }
}

// The node k has the state.
pub fn mark(states: &mut [State; Script::TYPE_TERMS], k: usize, state: State)
    ensures { Marked k (weight state) (weights states.old) (weights states.new) }
{
    if k < Script::TYPE_TERMS {
        states[k] = state;
    }
}

// The classes of x and y made one; the greater representative then waits.
pub fn join(
    representatives: &mut [u16; Script::TYPE_TERMS],
    states: &mut [State; Script::TYPE_TERMS],
    x: usize,
    y: usize,
)
    requires { (x < type_term_limit) × (y < type_term_limit) }
    ensures { length representatives.old ≡ type_term_limit → length (weights states.old) ≡ type_term_limit → Joined type_term_limit x y representatives.old (weights states.old) representatives.new (weights states.new) }
{
    let u = representatives[x];
    let v = representatives[y];
    if u < v {
        relabel(representatives, v, u);
        mark(states, usize::from(v), State::Waiting);
        return;
    }
    if v < u {
        relabel(representatives, u, v);
        mark(states, usize::from(u), State::Waiting);
    }
}

// The first node that waits.
pub fn first_waiting(states: &[State; Script::TYPE_TERMS]) -> Option<usize>
    ensures { result ≡ position is_waiting states.now }
{
    states.iter().position(|state| *state == State::Waiting)
}
