// Where each table begins in scratch, and by what the numbers of one word are told apart; specs/Tables.antt has the same numbers.
pub const TYPES_AT: usize = 16;

pub const PROCESSES_AT: usize = 144;

pub const EXECS_AT: usize = 400;

pub const ENTRIES_AT: usize = 416;

pub const NODES_AT: usize = 928;

pub const ALTERNATIVES_AT: usize = 1440;

pub const TERMS_AT: usize = 1952;

pub const BRANCHES_AT: usize = 4000;

// A word that holds several numbers: by what each is told from the next, and the unit of one that follows two others.
pub const OFFSET_RADIX: usize = 8192;

pub const TYPE_KIND_RADIX: usize = 8;

pub const TYPE_FIRST_RADIX: usize = 1024;

pub const TYPE_SECOND_UNIT: usize = TYPE_KIND_RADIX * TYPE_FIRST_RADIX;

pub const TERM_KIND_RADIX: usize = 16;

pub const TERM_FIRST_UNIT: usize = TERM_KIND_RADIX * OFFSET_RADIX;

pub const POINTER_RADIX: usize = 16384;

pub const PROVIDED_RADIX: usize = 1024;
