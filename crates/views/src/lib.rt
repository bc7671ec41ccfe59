// Node views: what a node's units make of it, from its pages and then from the buffer; the node table; steps 4 and 5.
#![tactic(auto)]

pub mod buffer;
pub mod fold;
pub mod node;
pub mod nodes;
pub mod read;
pub mod table;
pub mod units;
pub mod view;
pub mod well;
