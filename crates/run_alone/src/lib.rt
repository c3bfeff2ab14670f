#![tactic(auto)]

pub mod calling;
pub mod cancelling;
pub mod folding;
pub mod forwarding;
pub mod handlers;
pub mod leaving;
pub mod outcome;
pub mod parting;
pub mod raising;
pub mod spawning;
pub mod trying;
