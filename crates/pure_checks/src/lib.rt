//! Tests of what no clause says and no run shows about the crates of values: sections, stored
//! records and the text printed for them, and lines that a run doesn't process yet, as bytes and
//! texts that were written by hand.
//!
//! The tests have a crate of their own, so that none of those crates is proved again with its
//! tests. What the built program can show is a row of tests/program/rows.txt or a case of
//! tests/program/cases.
#![tactic(auto)]

#[cfg(test)]
mod tests;
