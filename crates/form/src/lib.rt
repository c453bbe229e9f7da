// The form of a release.
#![tactic(auto)]

pub mod theorems;
