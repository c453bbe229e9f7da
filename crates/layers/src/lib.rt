// Layers over a sheet of any make, each of which is a sheet again.
#![tactic(auto)]

pub mod folder;
pub mod theorems;
pub mod turn;
