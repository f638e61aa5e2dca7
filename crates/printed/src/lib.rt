// The printed scorer: the templates of a face, laid over the columns of a photograph.
#![tactic(auto)]

mod best;
mod image;
mod printed_scorer;
mod strip;
mod tables;
mod values;

pub use image::{Columns, gather};
pub use printed_scorer::Printed;
pub use tables::{Tables, Template, tabulate};
