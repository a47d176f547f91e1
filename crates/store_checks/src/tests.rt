//! Functions without a contract run each operation on a board in memory, and each table.

mod accesses;
mod admission;
mod answers;
mod faults;
mod moves;
mod played;
mod polled;
mod polls;
mod rows;
mod runs;
mod samples;
mod stores;
mod tables;
