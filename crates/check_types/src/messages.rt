// What goes over a channel of a type. A side is 0 for provided, 1 for used.

// A channel goes over: the sender's side, the side of what is passed, its node, the node afterwards.
#[derive(Clone, Copy)]
pub struct Passing {
    pub sender: u32,
    pub side: u32,
    pub what: usize,
    pub after: usize,
}

// A label goes over: the sender's side, the place past the first alternative, how many there are.
#[derive(Clone, Copy)]
pub struct Choosing {
    pub sender: u32,
    pub place: usize,
    pub count: usize,
}
