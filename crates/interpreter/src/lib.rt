#![tactic(auto)]

pub mod entries;
mod inside;
pub mod names;
mod places;
mod reports;
pub mod warnings;
