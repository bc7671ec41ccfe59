// What a commit may write of the nodes: each node anew, and its own units of the buffer; read once, and kept as bytes.
#![tactic(auto)]

pub mod measure;
pub mod own;
pub mod read;
pub mod tally;
pub mod written;
