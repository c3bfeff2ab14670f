// The kinds of the nodes of the tables, in the order of the trees that they stand for; specs/Tables.antt has the same numbers.
// Types.
pub const UNIT: usize = 0;

pub const NAMED: usize = 1;

pub const TENSOR: usize = 2;

pub const PAR: usize = 3;

pub const LOLLI: usize = 4;

pub const PLUS: usize = 5;

pub const WITH: usize = 6;

// Terms of processes: 0 is the empty process, which has no node; sends, then cancel and spawn; receives; terms that end their process.
pub const SEND_UNIT: usize = 1;

pub const SEND_CHANNEL: usize = 2;

pub const SEND_LABEL: usize = 3;

pub const CANCEL: usize = 4;

pub const SPAWN: usize = 5;

pub const RECV_UNIT: usize = 6;

pub const RECV_CHANNEL: usize = 7;

pub const RECV_LABEL: usize = 8;

pub const FWD: usize = 9;

pub const CALL: usize = 10;

pub const RAISE: usize = 11;

pub const TRY: usize = 12;
