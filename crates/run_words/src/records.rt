// The parts of a run by value, where their words stand, and by what the numbers of one word are told apart; specs/Raw.antt has the same numbers.
// The header: how many processes there are, how many outside numbers were given, how many channels the outside uses, whether the run has halted (0 or 1).
pub const COUNT: usize = 0;

pub const GIVEN: usize = 1;

pub const OUTSIDE_COUNT: usize = 2;

pub const HALTED: usize = 3;

// The outside's channels: a number, and a type with a channel.
pub const OUTSIDES_AT: usize = 16;

pub const OUTSIDE_WORDS: usize = 2;

// The processes: a term with what is done with it, a link, how many ends are held, and the ends.
pub const PLACES_AT: usize = 80;

pub const PLACE_WORDS: usize = 40;

pub const LINK: usize = 1;

pub const HELD_COUNT: usize = 2;

pub const ENDS: usize = 3;

// An end: a name with a side, and a type with a channel.
pub const END_WORDS: usize = 2;

pub const HELD_WORDS: usize = 32;

// Of the first process: its link, its first end; and where the second process stands.
pub const LINKS_AT: usize = PLACES_AT + LINK;

pub const ENDS_AT: usize = PLACES_AT + ENDS;

pub const SECOND_PLACE_AT: usize = PLACES_AT + PLACE_WORDS;

// No link: else it is 1 + a place.
pub const UNLINKED: u32 = 0;

// What a process does; which side an end is on.
pub const RUNNING: u32 = 0;

pub const FOLDING: u32 = 1;

pub const WAITING: u32 = 2;

pub const PROVIDED: u32 = 0;

pub const USED: u32 = 1;

// Numbers of one word.
pub const KIND_RADIX: u32 = 4;

pub const SIDE_RADIX: u32 = 2;

pub const CHANNEL_RADIX: u32 = 512;

// A term's pointer is below this.
pub const POINTER_LIMIT: u32 = 16384;

// An end that a process holds: the offset of its name, its side (PROVIDED or USED), the node of its type, its channel.
#[derive(Clone, Copy)]
pub struct End {
    pub name: u32,
    pub side: u32,
    pub node: u32,
    pub channel: u32,
}

// What a process holds, oldest first, as two words for each end.
#[derive(Clone, Copy)]
pub struct Held {
    pub count: usize,
    pub words: [u32; HELD_WORDS],
}

// A process: what it does (RUNNING, FOLDING or WAITING as a handler); its term; its link, which is UNLINKED or 1 + place; what it holds.
#[derive(Clone, Copy)]
pub struct Process {
    pub kind: u32,
    pub pointer: u32,
    pub link: u32,
    pub held: Held,
}

// What a process does, and its term.
#[derive(Clone, Copy)]
pub struct Doing {
    pub kind: u32,
    pub pointer: u32,
}

// Nothing is held.
pub const NOTHING: Held = Held {
    count: 0,
    words: [0; HELD_WORDS],
};

// A new process, of which is still to be said what it does, its link and what it holds.
pub const NEW: Process = Process {
    kind: RUNNING,
    pointer: 0,
    link: UNLINKED,
    held: NOTHING,
};

// A channel that the outside uses.
#[derive(Clone, Copy)]
pub struct Outside {
    pub number: u32,
    pub node: u32,
    pub channel: u32,
}

// A change of a channel that the outside uses: another type, or another channel in its place.
#[derive(Clone, Copy)]
pub enum Change {
    Node(u32),
    Channel(u32),
}

// A far end: held by the process at a place, at a position of what it holds; the outside's, at a position of its channels; given up.
#[derive(Clone, Copy)]
pub enum Far {
    Process(usize, usize),
    Outside(usize),
    GivenUp,
}
