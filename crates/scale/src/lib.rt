// Scales: the values that grades are counted in.
#![tactic(auto)]

pub mod pair;
pub mod scale;
pub mod unit;
pub mod whole;
