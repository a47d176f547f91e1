//! What the daemon runs on: a source of script bytes, and a board with two files, a device with its
//! record store, and an output.
//!
//! Both are traits. A source or board may be modelled: its clauses then say what each call does to
//! its contents and when it may fail. A real file or pipe isn't modelled, so clauses about contents
//! don't apply to it; the versions in memory are. Code that is generic over the traits can't find
//! out which it was given.
//!
//! A public function with an empty body is a law: its clauses are the point.
#![tactic(auto)]

mod board;
mod events;
mod history;
mod laws;
mod leaving;
mod mem_board;
mod mem_source;
mod pick;
mod source;
mod through;

pub use board::{Access, Board, BoardPut, DiskCall, FileNo, Reg};
pub use laws::{disk_model, disk_model_words};
pub use mem_board::MemBoard;
pub use mem_source::MemSource;
pub use pick::Pick;
pub use source::{Failed, Source};
pub use through::{put, write_through};
