// Calls on a folder over a sheet of any make, and their answers.
#![tactic(auto)]

pub mod answer;
pub mod call;
pub mod desk;
pub mod example;
mod grades;
mod listing;
mod ratio;
mod refusal;
pub mod replay;
mod shown;
#[cfg(test)]
mod tests;
pub mod theorems;
