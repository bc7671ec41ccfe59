// The plan of a commit, made from the image and the arrays of a state: the blocks, the choice of a delta or a snapshot, the places.
#![tactic(auto)]

pub mod choose;
pub mod make;
pub mod places;
pub mod survey;
