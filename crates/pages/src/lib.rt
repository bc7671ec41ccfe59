// Pages: the units in a page's data, its header and own rules, writing a page, which live pages stand, and show.
#![tactic(auto)]

pub mod header;
pub mod show;
pub mod standing;
pub mod unit;
pub mod write;
