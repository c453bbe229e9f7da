// Grading what stands on a sheet: on any scale, loose, strict and unit grading in whole numbers, and the least ratio.
#![tactic(auto)]

mod collect;
mod count;
mod descent;
mod forbidden;
pub mod grade;
mod graph;
pub mod kinds;
pub mod memory;
mod problem;
pub mod ratio;
mod read;
mod relax;
mod rising;
mod settle;
mod solve;
