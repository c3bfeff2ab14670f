// What the programs take in: the names in their arguments, the files so named, and the bytes of a file or of standard input.
#![tactic(auto)]

pub mod naming;
pub mod reading;
