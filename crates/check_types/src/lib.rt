#![tactic(auto)]

pub mod acting;
pub mod branches;
mod classes;
pub mod equality;
pub mod fit;
pub mod left_out;
pub mod messages;
