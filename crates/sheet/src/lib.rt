// Sheets: which records there are, and which pairs of them the judges marked.
#![tactic(auto)]

pub mod bitsheet;
pub mod meaning;
pub mod pair;
pub mod present;
pub mod state;
