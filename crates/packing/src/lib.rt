// The nodes of a commit packed into pages: first fit by the number of their units, then pages that have room are filled.
#![tactic(auto)]

pub mod delta;
pub mod fill;
pub mod fit;
pub mod pack;
pub mod widen;
