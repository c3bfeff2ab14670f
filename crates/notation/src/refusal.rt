// A refusal of a text or a call: its number in the scope's list, and the lowest offset of the text where it applies, 0 where it speaks of no byte.
// The definitions have the numbers too (specs/Refusals.antt), and callers from C are handed them: so they are numbers here, under names.
#[derive(Clone, Copy)]
pub struct Refusal {
    pub number: u32,
    pub at: usize,
}

impl Refusal {
    pub const SCRATCH_SHORT: u32 = 1;

    pub const TEXT_LONG: u32 = 2;

    pub const NO_TOKEN: u32 = 3;

    pub const NO_SCRIPT: u32 = 4;

    pub const OVER_LIMIT: u32 = 5;

    pub const REPEATED: u32 = 6;

    pub const UNDEFINED: u32 = 7;

    pub const BARE_NAME: u32 = 8;

    pub const EXEC_RULE: u32 = 9;

    pub const NOT_HELD: u32 = 10;

    pub const UNFIT: u32 = 11;

    pub const NO_LABEL: u32 = 12;

    pub const LEFT_OVER: u32 = 13;

    pub const NO_ROOM: u32 = 15;

    pub const RUN_SHORT: u32 = 16;

    pub const NO_LINE: u32 = 17;

    pub const NO_CONFIGURATION: u32 = 18;

    pub const NO_PROCESS: u32 = 19;

    pub const NOT_OPEN: u32 = 20;

    pub const LACKING: u32 = 21;

    pub const HALTED: u32 = 22;
}
