//! The lines of a script: where each ends, its words, and what it asks for.
//!
//! A public function with an empty body is a law: its clauses are the point.
#![tactic(auto)]

mod blocks;
mod bytes;
mod fields;
mod input;
mod kinds;
mod laws;
mod line;
mod number;
mod reader;
mod splitting;
mod window;

pub use blocks::position_of;
pub use bytes::{bytes_of, written_bytes_are_read};
pub use fields::BANK_WORDS;
pub use input::{InputReader, InputStep, inputs_laws};
pub use kinds::{LAST_CHANNEL, MOST_WORDS};
pub use laws::numbers_in_digits;
pub use line::{
    ErrorReport, Line, LineRefused, Table, numbers_are_in_range, read_line,
    refused_lines_have_words, written_lines_are_read,
};
pub use number::{
    DECIMAL_DIGITS, HEXADECIMAL_DIGITS, decimal, hexadecimal, written_numbers_are_read,
};
pub use reader::{
    LONGEST_LINE, LONGEST_SCRIPT, LineReader, NextRefused, line_feeds_cut_scripts,
    lines_within_limits_are_the_script,
};
pub use splitting::{lines_are_the_script, spaces_separate_words};
