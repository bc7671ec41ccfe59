// The tree: find, insert and delete as recursion on the level, step 6, and the records in key order.
#![tactic(auto)]

pub mod balance;
pub mod check;
pub mod delete;
pub mod find;
pub mod insert;
pub mod leaves;
