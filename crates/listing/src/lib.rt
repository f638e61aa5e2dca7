// From the files of a face and a photograph to what is listed of them.
#![tactic(auto)]

mod files;
mod line;
mod print;

pub use files::list_files;
pub use line::{Line, read_line};
pub use print::print_answer;
