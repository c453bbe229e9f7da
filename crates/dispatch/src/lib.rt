// From a script to the release of the folder that it leaves.
#![tactic(auto)]

pub mod dispatch;
pub mod refusal;
