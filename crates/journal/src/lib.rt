// The chip as a log of commits: what format, mount and commit do to an image, and what a cut leaves of them.
#![tactic(auto)]

pub mod format;
pub mod mount;
