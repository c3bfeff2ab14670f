// A mark for each channel that is held, by its position.
ghost use Rattle.std.specs.Prelude.{◌≡◌, ◌<◌, ◌≤◌};
ghost use Rattle.notation.specs.Limits.{held_limit};
ghost use Rattle.check_contexts.specs.Marks.{mark_of, any_of};

use notation::script::Script;

#[derive(Clone, Copy)]
pub struct Marks {
    pub set: [bool; Script::HELD],
}

pub const NONE: Marks = Marks {
    set: [false; Script::HELD],
};

pub const ALL: Marks = Marks {
    set: [true; Script::HELD],
};

// Whether the position k is marked.
pub fn is_marked(m: Marks, k: usize) -> bool
    requires { k < held_limit }
    ensures { result ≡ mark_of m k }
{
    m.set[k]
}

// One of the first n positions is marked.
pub fn any_marked(m: Marks, n: usize) -> bool
    requires { n ≤ held_limit }
    ensures { result ≡ any_of (mark_of m) n }
{
    m.set[..n].contains(&true)
}
