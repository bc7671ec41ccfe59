// A set of node numbers below 256, as four words of 64 bits.
#![tactic(auto)]

pub mod set;
