#![tactic(auto)]

pub mod acting;
pub mod calls;
pub mod forwards;
pub mod sends;
