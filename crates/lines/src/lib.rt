// The line format of a sheet: a line of 16 bytes says one entry.
#![tactic(auto)]

mod cuts;
mod reads;
mod writes;

pub use cuts::{Field, Fields, Part, cut, cut_is_told};
pub use reads::{line_is_told, read_line};
pub use writes::{copy_line, line_writes_back, rewrite_line, write_line, writing_is_told};

// How many bytes a line has, its line feed among them.
pub const LINE: usize = 16;
