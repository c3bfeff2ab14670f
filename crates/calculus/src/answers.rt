// What a step shows: nothing; a label on an outside channel, by the label's offset in the text; a close; a channel passed out,
// with its new number and whether it was already given up; a channel cancelled.
#[derive(Clone, Copy)]
pub enum Seen {
    Nothing,
    Label(u32, u32),
    Close(u32),
    Passed(u32, u32, bool),
    Cancelled(u32),
}

// What a step comes to that is carried out: what it shows; or it was a raise that nobody catches, and the run has halted.
// The entries answer such a thing or a refusal.
#[derive(Clone, Copy)]
pub enum Stepped {
    Carried(Seen),
    Uncaught,
}

// A run-on's end, each with the steps taken.
#[derive(Clone, Copy)]
pub enum RanOn {
    Uncaught(u32),
    Shown(Seen, u32),
    Done(u32),
    Full(u32),
    Stopped(u32),
}

// How many outside channels are open, and their numbers, rising; zeros after them.
#[derive(Clone, Copy)]
pub struct Report {
    pub open: u32,
    pub numbers: [u32; 32],
}

// How many processes there are, and what the step at each of their places is: not open 0, open 1, open but lacking 2; in a halted run none is open. Zeros after them.
#[derive(Clone, Copy)]
pub struct Places {
    pub processes: u32,
    pub steps: [u32; 128],
}

// A warning of a script: where the names of its process and of the recv's channel stand, and the missing label's apostrophe.
#[derive(Clone, Copy)]
pub struct Missing {
    pub process: usize,
    pub channel: usize,
    pub label: usize,
}
