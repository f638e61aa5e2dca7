// The cells that a search is lent, the line that they are laid out for, and where each thing lies in them.
#![tactic(auto)]

mod access;
mod cell;
mod lattice;
mod layout;
mod line;

pub use cell::Cell;
pub use lattice::Lattice;
pub use line::Line;
