//! The lines of an input of any length, read in pieces: some as long as a line may be, some longer,
//! and bytes without a line feed at their end.
use board_core::MemSource;
use ras_script::{InputReader, InputStep};
use std::alloc::Global;
use std::test::Fail;

// How many bytes of a letter follow, and whether a line feed ends them.
const INPUT: [(usize, u8, bool); 6] = [
    (3, b'a', true),
    (0, b'b', true),
    (40_000, b'c', true),
    (40_001, b'd', true),
    (100_000, b'e', true),
    (3, b'f', false),
];

fn input(alloc: Global) -> Result<Vec<u8>, Fail> {
    let mut bytes = Vec::new(alloc);
    for (count, letter, ends) in &INPUT {
        bytes.resize(bytes.len() + *count, *letter)?;
        if *ends {
            bytes.push(b'\n')?;
        }
    }
    Ok(bytes)
}

// What the reader returns, and how many bytes its line has. The second read fails, and no byte is
// lost.
const STEPS: [(Option<InputStep>, usize); 11] = [
    (Some(InputStep::Line), 3),
    (Some(InputStep::Line), 0),
    (None, 0),
    (Some(InputStep::Line), 40_000),
    (Some(InputStep::Dropping), 0),
    (Some(InputStep::Long), 0),
    (Some(InputStep::Dropping), 0),
    (Some(InputStep::Dropping), 0),
    (Some(InputStep::Long), 0),
    (Some(InputStep::End { cut: true }), 0),
    (Some(InputStep::End { cut: true }), 0),
];

fn step(inputs: &mut InputReader, source: &mut MemSource) -> Option<InputStep> {
    inputs.advance(source).ok()
}

fn has_line(inputs: &InputReader, length: usize) -> bool {
    inputs.line().len() == length
}

#[test]
fn reads_inputs_of_any_length(rt: HostRuntime) -> Result<(), Fail> {
    let alloc = rt.alloc();
    let mut source = MemSource::new(input(alloc)?, 1_000, vec![in alloc; 2]?);
    let mut inputs = InputReader::new(alloc)?;
    for (row, (wanted, length)) in STEPS.iter().enumerate() {
        let found = step(&mut inputs, &mut source);
        assert!(rt; found == *wanted, "row {row}");
        if found == Some(InputStep::Line) {
            assert!(rt; has_line(&inputs, *length), "row {row}");
        }
    }
    Ok(())
}
