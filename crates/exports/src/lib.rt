// The calls for programs in other languages. A caller keeps a state in parts and lends them to each call: six words (on, blocks, commit,
// pending, count, part), the free node numbers as a set in four words of 64 bits, 256 list lengths, 1,024 pages of lists, the erases of 32 blocks and the 11,520 bytes of the reservation buffer.
// The test of a page for being free needs no state, and is there for timings.
#![tactic(auto)]

pub mod finds;
pub mod forecast;
pub mod free;
pub mod updates;
mod words;
pub mod writes;
