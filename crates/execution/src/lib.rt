// The plan of a commit carried out: its erases, its pages as the arrays hold them, and the node table that it leaves.
#![tactic(auto)]

pub mod erase;
pub mod execute;
pub mod figures;
pub mod gather;
pub mod write;
