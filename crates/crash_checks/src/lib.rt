//! Tests of what no clause says and the built program can't show: whole runs over boards in memory
//! on which calls fail, the machine crashes, or the disk is exchanged, and calls of the program's own
//! board over real files.
//!
//! Each call of `rasd` brings everything that its clauses refer to into the proof of the function
//! that makes the call. So the tests call it through one function that promises nothing, over one
//! type of board.
#![tactic(auto)]

#[cfg(test)]
mod tests;
