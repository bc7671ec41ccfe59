// The chip: what a page and a block are, power, and the three flash operations.
//
// An operation works on the part of the image that is its page or its block. `image` lends that part and says what the whole
// image is then. Contracts cite specs/, where geometry is a parameter, as it is in the code.
#![tactic(auto)]

pub mod block;
pub mod geometry;
pub mod image;
pub mod operation;
pub mod page;
pub mod power;
pub mod progress;
