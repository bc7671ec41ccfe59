// A rebuild: a tree laid anew from its records, packed into pages, with places on blocks that are wholly free.
#![tactic(auto)]

pub mod blocks;
pub mod layers;
pub mod make;
pub mod nodes;
pub mod renew;
