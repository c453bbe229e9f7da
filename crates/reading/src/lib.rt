// Reading a release: from bytes of every kind and length to what they tell, where it holds.
#![tactic(auto)]

mod claim;
pub mod read;
mod reader;
pub mod release;
mod ring;
mod sections;
