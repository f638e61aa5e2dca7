// The sweep: one text for whatever is combined along the paths of a line.
#![tactic(auto)]

mod combining;
mod places;
mod sweeping;
#[cfg(test)]
mod tests;

pub use combining::Combining;
pub use places::work_place;
pub use sweeping::{sweep, sweep_cells};
