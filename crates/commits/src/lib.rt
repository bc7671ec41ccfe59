// A commit: its plan made, and carried out; or what it would cost.
#![tactic(auto)]

pub mod execute;
pub mod forecast;
