// Where the reading stands, and what counts against the limits: type terms, process terms, open brackets.
#[derive(Clone, Copy)]
pub struct Cursor {
    pub at: u16,
    pub types: usize,
    pub terms: usize,
    pub depth: usize,
}

// How far each table is filled, and what was read last: the number of a type or the length of a list.
#[derive(Clone, Copy)]
pub struct Tally {
    pub types: usize,
    pub processes: usize,
    pub execs: usize,
    pub entries: usize,
    pub nodes: usize,
    pub alternatives: usize,
    pub terms: usize,
    pub branches: usize,
    pub last: usize,
}

// A node of the type table.
#[derive(Clone, Copy)]
pub struct TypeNode {
    pub kind: usize,
    pub first: usize,
    pub second: usize,
}

// A node of a process's body.
#[derive(Clone, Copy)]
pub struct TermNode {
    pub kind: usize,
    pub at: usize,
    pub first: usize,
    pub second: usize,
    pub third: usize,
}

// An entry of the process table: its name, its first signature entry, how many channels it provides and uses, its body.
#[derive(Clone, Copy)]
pub struct ProcessEntry {
    pub at: usize,
    pub first: usize,
    pub provided: usize,
    pub used: usize,
    pub body: usize,
}
