//! The program: runs a command over standard input, standard output and the working folder's files.
#![tactic(auto)]

mod laws;
mod over_folder;
mod status;

pub use laws::folder_eras;
pub use over_folder::{Ended, rasd_over};
use ras_base::NoMemory;
use ras_daemon::{Exit, RasWord};
use ras_host::{RealInput, RealSystem};
use status::process_status;
use std::env::{Env, FillError};
use std::process::ExitCode;

// Every word of a command is shorter than this.
const LONGEST_WORD: usize = 64;

fn main(rt: HostRuntime) -> ExitCode {
    let exit = match words_of(rt) {
        Ok(words) => {
            let (input, system) = (RealInput::new(rt), RealSystem::new(rt));
            rasd_over(rt.alloc(), &words, input, system).exit
        }
        Err(NoMemory) => Exit::NoMemory,
    };
    process_status(&exit)
}

// Returns the program's arguments without its name.
fn words_of(rt: HostRuntime) -> Result<Vec<RasWord>, NoMemory> {
    let mut words = Vec::new(rt.alloc());
    for place in 1..usize::MAX {
        match word_at(rt, place)? {
            Some(word) => words.push(word)?,
            None => break,
        }
    }
    Ok(words)
}

// Returns the argument at this index of the command line, if there is one. An argument longer than
// `LONGEST_WORD` is cut. No command has a word that long, so the cut argument matches none either.
fn word_at(rt: HostRuntime, place: usize) -> Result<Option<RasWord>, NoMemory> {
    let mut bytes = [0; LONGEST_WORD];
    let length = match rt.arg(place, &mut bytes) {
        Ok(length) => length,
        Err(FillError::TooLong) => LONGEST_WORD,
        Err(FillError::NotPresent) => return Ok(None),
    };
    Ok(Some(RasWord::new(rt.alloc(), &bytes[..length])?))
}
