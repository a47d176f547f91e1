//! Lines of kinds that a run doesn't process yet: what they ask for, and how each word is rejected.
use ras_facts::BankReport;
use ras_script::{Line, LineRefused, Table, read_line};
use std::alloc::Global;

const BANK: BankReport = BankReport {
    boot: 1,
    seconds: 100,
    cpu: 65_535,
    bank: 255,
    tsc: 1000,
    cap: 0x0100_0c14,
    mcg: 4,
    status: 0x8c00_0040_0001_0090,
    addr: 0x1234_5040,
    misc: 0x86,
};

// The parts of a line: the name of its kind, its number, and its bytes. For a bank's snapshot the
// bytes show whether it is `BANK`.
type Said<'a> = (&'a [u8], u64, &'a [u8]);

fn said_by(line: &Line) -> Said<'_> {
    match line {
        Line::Table(Table::Erst(bytes)) => (b"erst", 0, bytes.bytes()),
        Line::Put { id, bytes } => (b"put", *id, bytes.bytes()),
        Line::Panic { id, bank } if *bank == BANK => (b"panic", *id, b"bank"),
        Line::Poll { seconds } => (b"poll", *seconds, b""),
        _ => (b"another", 0, b""),
    }
}

// Whether a line is read and has these parts.
fn says(alloc: Global, bytes: &[u8], said: Said<'_>) -> bool {
    match read_line(alloc, bytes) {
        Ok(line) => said_by(&line) == said,
        Err(_) => false,
    }
}

const SAID: [(&[u8], Said<'static>); 4] = [
    (b"erst 0aFf", (b"erst", 0, b"\x0a\xff")),
    (b"put ffffffffffffffff 4142", (b"put", u64::MAX, b"AB")),
    (
        b"panic 9 1 100 65535 255 1000 1000c14 4 8c00004000010090 12345040 86",
        (b"panic", 9, b"bank"),
    ),
    (b"poll 300", (b"poll", 300, b"")),
];

#[test]
fn reads_lines_of_later_kinds(rt: HostRuntime) {
    for (row, (bytes, said)) in SAID.iter().enumerate() {
        assert!(rt; says(rt.alloc(), bytes, *said), "row {row}");
    }
}

// Returns why a line is rejected, if so.
fn refusal(alloc: Global, bytes: &[u8]) -> Option<LineRefused> {
    read_line(alloc, bytes).err()
}

// Lines with the one byte `-` instead of a word, which is rejected, and lines with one word too
// many or too few.
const REFUSED: [(&[u8], LineRefused); 10] = [
    (b"erst -", LineRefused::Hex),
    (b"erst 00 -", LineRefused::Words),
    (b"put - 00", LineRefused::Number),
    (b"put 1 -", LineRefused::Hex),
    (b"put 1 0g", LineRefused::Hex),
    (b"put - - -", LineRefused::Words),
    (b"poll -", LineRefused::Number),
    (b"poll", LineRefused::Words),
    (
        b"panic - 1 100 0 7 1000 1000c14 0 8c00004000010090 12345040 86",
        LineRefused::Number,
    ),
    (
        b"panic 9 1 100 0 7 1000 1000c14 0 8c00004000010090 12345040 -",
        LineRefused::Number,
    ),
];

#[test]
fn refuses_lines_of_later_kinds(rt: HostRuntime) {
    for (row, (bytes, refused)) in REFUSED.iter().enumerate() {
        assert!(rt; refusal(rt.alloc(), bytes) == Some(*refused), "row {row}");
    }
}
