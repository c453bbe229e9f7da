// Scripts: bytes to lines to calls, and answers to lines of bytes.
#![tactic(auto)]

pub mod lines;
pub mod make;
mod number;
pub mod parse;
pub mod print;
pub mod run;
mod spell;
pub mod step;
pub mod theorems;
mod write;
