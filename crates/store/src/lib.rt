// The flash index: its state, and the calls on a lent image.
#![tactic(auto)]

mod admit;
pub mod answer;
mod check;
pub mod commit;
mod ending;
pub mod find;
pub mod forecast;
pub mod format;
pub mod mount;
mod prepare;
pub mod rebuild;
pub mod report;
mod scope;
pub mod show;
pub mod state;
pub mod step;
pub mod update;
