//! Stored records: how they are read, the text printed for their reports, and the record that a
//! panic leaves.
use super::bytes::{OTHER, PANIC, RECORD, front};
use cper_records::{RecordRefused, Unreadable, read_record, read_stored};
use cper_sections::{MemSection, Section, guid_at};
use dimm_topology::Topology;
use ras_account::Account;
use ras_facts::{BankReport, Detail, Entry, Report};
use ras_panic::{panic_of, panic_record, report_of_stored};
use ras_texts::{push_entry, push_unreadable};
use std::alloc::Global;
use std::test::Fail;
use uuid::Uuid;

// The identifier, the severity, the length and the number of sections of the record at the front.
fn header(bytes: &[u8]) -> Result<(u64, u32, u32, u16), RecordRefused> {
    match read_record(bytes) {
        Ok(record) => Ok((
            record.id(),
            record.severity(),
            record.length(),
            record.count(),
        )),
        Err(refused) => Err(refused),
    }
}

// A section of the record at the front, its severity and its length.
fn section(bytes: &[u8], place: u16) -> Option<(Section, u32, usize)> {
    match read_record(bytes) {
        Ok(record) if place < record.count() => {
            let section = record.section(place);
            Some((section.section, section.severity, section.bytes.len()))
        }
        _ => None,
    }
}

const MEMORY_TOLD: MemSection = MemSection {
    physical: Some(0x4000_0000),
    mask: None,
    node: None,
    card: None,
    module: None,
    bank: None,
    row: None,
    rank: None,
    kind: Some(2),
};

fn other() -> Uuid {
    guid_at(&OTHER)
}

#[test]
fn record_of_two_sections(rt: HostRuntime) {
    assert!(rt; header(&RECORD) == Ok((5, 2, 353, 2)));
    assert!(rt; section(&RECORD, 0) == Some((Section::Memory(MEMORY_TOLD), 2, 73)));
    assert!(rt; section(&RECORD, 1) == Some((Section::Unknown(other()), 3, 8)));
}

#[test]
fn no_part_of_a_record_is_one(rt: HostRuntime) {
    for length in 0..353usize {
        let wanted = if length < 128 {
            RecordRefused::Short
        } else {
            RecordRefused::Length
        };
        let told = header(front(&RECORD, length));
        assert!(rt; told == Err(wanted), "{length} bytes");
    }
}

// The report of the record at the front of bytes, read at second 300.
fn report_of(alloc: Global, bytes: &[u8]) -> Result<Report, Fail> {
    match read_record(bytes) {
        Ok(record) => Ok(report_of_stored(alloc, 300, &record, &Topology::new(alloc))?),
        Err(_) => Err("a record".into()),
    }
}

// Appends the lines of an entry that is new in an account, with these details.
fn push_lines(
    text: &mut Vec<u8>,
    account: &Account,
    entry: &Entry,
    details: &[Detail],
) -> Result<(), Fail> {
    Ok(push_entry(text, details, account, entry)?)
}

// Returns the lines of a new report.
fn lines_of(alloc: Global, report: Report) -> Result<Vec<u8>, Fail> {
    let mut text = Vec::new(alloc);
    let account = Account::new(alloc);
    let Report { fact, details } = report;
    let entry = Entry::Fact(fact);
    push_lines(&mut text, &account, &entry, details.as_slice())?;
    Ok(text)
}

// Whether these lines are printed for the record at the front of bytes.
fn prints(alloc: Global, bytes: &[u8], lines: &[u8]) -> Result<bool, Fail> {
    let report = report_of(alloc, bytes)?;
    let text = lines_of(alloc, report)?;
    Ok(text.as_slice() == lines)
}

#[test]
fn lines_of_a_record(rt: HostRuntime) -> Result<(), Fail> {
    let lines = b"log record=0000000000000005 t=300 class=corrected weight=1 label=- \
page=0000000040000000 memory type=single-bit-ecc node=- card=- module=- mask=-\n\
log record=0000000000000005 t=300 class=informational weight=1 label=- page=- \
section=00112233-4455-6677-8899-aabbccddeeff\n";
    assert!(rt; prints(rt.alloc(), &RECORD, lines)?);
    Ok(())
}

// An error of bank 7 in which software has to act.
const REPORT: BankReport = BankReport {
    boot: 0x102,
    seconds: 0x0a0b_0c0d_0e0f,
    cpu: 0x203,
    bank: 7,
    tsc: 0x1001,
    cap: 0x0100_0c14,
    mcg: 5,
    status: 0xbd80_0000_0001_0134,
    addr: 0x1234_5040,
    misc: 0x86,
};

// Returns the panic record of a report, if there is one.
fn panic(id: u64, report: &BankReport) -> Option<[u8; 456]> {
    panic_record(id, report).ok()
}

#[test]
fn bytes_of_a_panic_record(rt: HostRuntime) {
    assert!(rt; panic(0x1122_3344_5566_7788, &REPORT) == Some(PANIC));
}

// For a panic record the bank's own line is printed, with its name and its time.
#[test]
fn lines_of_a_panic_record(rt: HostRuntime) -> Result<(), Fail> {
    let line = b"log bank=258/515/7/4097 t=11042563100175 class=SRAR weight=1 label=- \
page=0000000012345000 code=cache:D:L0:DRD threshold=- over=0 mark=srar ripv=1 eipv=0 mcip=1\n";
    assert!(rt; prints(rt.alloc(), &PANIC, line)?);
    Ok(())
}

// With one byte changed that isn't the report's, it is an ordinary record.
#[test]
fn lines_of_a_changed_panic_record(rt: HostRuntime) -> Result<(), Fail> {
    let mut bytes = PANIC;
    bytes[416] = 1;
    let lines = b"log record=1122334455667788 t=300 class=fatal weight=1 label=- page=- \
section=7a6d1f02-52c4-4d1e-9b0a-3c5e8f714d20\n\
log record=1122334455667788 t=300 class=fatal weight=1 label=- page=- \
x64 apic=- structures=0 contexts=1\n";
    assert!(rt; prints(rt.alloc(), &bytes, lines)?);
    Ok(())
}

// Returns bytes as a store does: with zeros after them, 16,384 in all.
fn filled(alloc: Global, bytes: &[u8]) -> Result<Vec<u8>, Fail> {
    let mut buffer = bytes.to_vec(alloc)?;
    buffer.resize(16_384, 0)?;
    Ok(buffer)
}

// Returns why nothing is read under an identifier, if so.
fn refusal(alloc: Global, id: u64, bytes: &[u8]) -> Result<Option<Unreadable>, Fail> {
    Ok(read_stored(id, &filled(alloc, bytes)?).err())
}

#[test]
fn record_under_an_identifier(rt: HostRuntime) -> Result<(), Fail> {
    let alloc = rt.alloc();
    assert!(rt; refusal(alloc, 5, &RECORD)? == None);
    assert!(rt; refusal(alloc, 6, &RECORD)? == Some(Unreadable::OtherId));
    let signature = Some(Unreadable::NoRecord(RecordRefused::Signature));
    assert!(rt; refusal(alloc, 5, b"C")? == signature);

    // The second section with 9 bytes passes the record's end.
    let mut bytes = RECORD;
    bytes[204] = 9;
    let section = Some(Unreadable::NoRecord(RecordRefused::SectionOut));
    assert!(rt; refusal(alloc, 5, &bytes)? == section);
    Ok(())
}

// Whether this line is printed for bytes under an identifier that can't be read.
fn tells(alloc: Global, id: u64, bytes: &[u8], line: &[u8]) -> Result<bool, Fail> {
    let mut text = Vec::new(alloc);
    if let Err(why) = read_stored(id, &filled(alloc, bytes)?) {
        push_unreadable(&mut text, id, why)?;
    }
    Ok(text.as_slice() == line)
}

#[test]
fn lines_of_unreadable_records(rt: HostRuntime) -> Result<(), Fail> {
    let alloc = rt.alloc();
    let mut bytes = RECORD;
    bytes[204] = 9;
    let section = b"unreadable record=0000000000000005 reason=section-out\n";
    assert!(rt; tells(alloc, 5, &bytes, section)?);
    let signature = b"unreadable record=0000000000000006 reason=signature\n";
    assert!(rt; tells(alloc, 6, &[0], signature)?);
    Ok(())
}

// Returns the report of the panic record under an identifier, if there is one.
fn report(alloc: Global, id: u64, bytes: &[u8]) -> Result<Option<BankReport>, Fail> {
    match read_stored(id, &filled(alloc, bytes)?) {
        Ok(rec) => Ok(panic_of(&rec)),
        Err(_) => Ok(None),
    }
}

#[test]
fn panic_record_with_zeros_after_it(rt: HostRuntime) -> Result<(), Fail> {
    let alloc = rt.alloc();
    assert!(rt; report(alloc, 0x1122_3344_5566_7788, &PANIC)? == Some(REPORT));
    assert!(rt; report(alloc, 8, &PANIC)? == None);
    Ok(())
}
