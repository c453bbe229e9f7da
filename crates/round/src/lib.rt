// A release written and read back.
#![tactic(auto)]

#[cfg(test)]
mod tests;
pub mod theorems;
pub mod trip;
