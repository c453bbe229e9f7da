// The subject's own words: thresholds, steps, refusals; and the theorems on what a ring forbids.
#![tactic(auto)]

pub mod bits;
pub mod decline;
pub mod step;
pub mod theorems;
pub mod thresholds;
