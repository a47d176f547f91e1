//! Operations of the driver over boards in memory: their accesses word for word, and what happens
//! if the device is busy, a call fails or the machine crashes. Also the machine of serialization
//! tables: tables as rows, whether they are admitted, and their runs. Also the record store's file.
#![tactic(auto)]

#[cfg(test)]
mod tests;
