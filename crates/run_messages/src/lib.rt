#![tactic(auto)]

pub mod meeting;
pub mod messages;
pub mod outward;
pub mod receiving;
pub mod sending;
pub mod waiting;
