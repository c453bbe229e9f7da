// Releases: the least ratio's finding as bytes.
#![tactic(auto)]

mod count;
mod draft;
mod sections;
#[cfg(test)]
mod tests;
pub mod write;
