// The lines of the probe program: an order read, a reply written, the sum and the noise of an image.
#![tactic(auto)]

pub mod noise;
pub mod order;
pub mod reply;
pub mod sum;
