// What the step at a place comes to.
use calculus::answers::Seen;

// Carried out, with what was seen; uncaught, and the run has halted; not open; open, but without a free place or number.
#[derive(Clone, Copy)]
pub enum Outcome {
    Carried(Seen),
    Uncaught,
    NotOpen,
    Lacking,
}
