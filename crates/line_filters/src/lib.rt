//! Filters of lines: a filter's text for the lines of a script is printed before the script is read
//! further.
#![tactic(auto)]

mod feeding;
mod filter;
mod filtering;
mod input_filter;
mod lines;

pub use feeding::{MOST_AT_ONCE, MOST_INPUTS, feed_lines, pieces_laws};
pub use filter::LineFilter;
pub use filtering::{exit_of, filter_lines};
pub use input_filter::{InputFilter, InputLine};
pub use lines::NumberedLines;
