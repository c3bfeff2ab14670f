#![tactic(auto)]

pub mod halves;
pub mod held;
pub mod initials;
pub mod marks;
pub mod mentions;
pub mod names;
pub mod signatures;
