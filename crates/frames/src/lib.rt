// The lines of the bench program: a frame read, an answer written.
#![tactic(auto)]

pub mod frame;
pub mod line;
pub mod output;
pub mod text;
