// A script that was read: how many declarations of each kind it has.
#[derive(Clone, Copy)]
pub struct Script {
    pub types: usize,
    pub processes: usize,
    pub execs: usize,
}

// The limits belong to the notation itself; specs/Limits.antt has the same numbers.
impl Script {
    pub const TEXT: usize = 8192;

    pub const NAME: usize = 32;

    pub const TYPES: usize = 64;

    pub const PROCESSES: usize = 64;

    pub const EXECS: usize = 16;

    pub const TYPE_TERMS: usize = 512;

    pub const PROCESS_TERMS: usize = 1024;

    pub const BRACKETS: usize = 24;

    pub const LABELS: usize = 16;

    pub const HELD: usize = 16;

    // A run's places and numbers.
    pub const PROCESS_PLACES: usize = 128;

    pub const CHANNEL_PLACES: usize = 512;

    pub const OUTSIDE_NUMBERS: usize = 32;

    // What the caller lends, in words.
    pub const SCRATCH_WORDS: usize = 6144;

    pub const RUN_WORDS: usize = 6144;
}
