#![tactic(auto)]

pub mod choosing;
pub mod dispatch;
pub mod running;
pub mod starting;
pub mod trials;
