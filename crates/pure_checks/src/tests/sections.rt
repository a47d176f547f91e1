//! Sections whose fields are distinguished by their bytes.
use super::bytes::{MEMORY, MEMORY_BYTES, PROCESSOR, PROCESSOR_BYTES, front};
use cper_sections::{
    Context, MemSection, ProcSection, Section, SectionRefused, context_at, guid_at, read_section,
};

// Returns the section of this type, as in a descriptor, and these bytes.
fn section(guid: &[u8; 16], bytes: &[u8]) -> Result<Section, SectionRefused> {
    read_section(guid_at(guid), bytes)
}

const MEMORY_TOLD: MemSection = MemSection {
    physical: Some(0x1716_1514_1312_1110),
    mask: Some(0x1f1e_1d1c_1b1a_1918),
    node: Some(0x2120),
    card: Some(0x2322),
    module: Some(0x2524),
    bank: Some(0x2726),
    row: Some(0x2b2a),
    rank: None,
    kind: Some(0x48),
};

// The rank has its own bytes, which only the later form of the section has.
const RANKED: MemSection = MemSection {
    rank: Some(0x4b4a),
    ..MEMORY_TOLD
};

// How many bytes of a memory section are there, and the section that is read from them.
const MEMORIES: [(usize, Result<Section, SectionRefused>); 5] = [
    (72, Err(SectionRefused::Short)),
    (73, Ok(Section::Memory(MEMORY_TOLD))),
    (79, Ok(Section::Memory(MEMORY_TOLD))),
    (80, Ok(Section::Memory(RANKED))),
    (81, Ok(Section::Memory(RANKED))),
];

#[test]
fn memory_sections(rt: HostRuntime) {
    for (length, wanted) in &MEMORIES {
        let told = section(&MEMORY, front(&MEMORY_BYTES, *length));
        assert!(rt; told == *wanted, "{length} bytes");
    }
}

const PROCESSOR_TOLD: ProcSection = ProcSection {
    kind: 8,
    isa: 9,
    error: 10,
    operation: 11,
    flags: 12,
    level: 13,
    version: 0x1716_1514_1312_1110,
    id: 0x9f9e_9d9c_9b9a_9998,
    target: 0xa7a6_a5a4_a3a2_a1a0,
    requestor: 0xafae_adac_abaa_a9a8,
    responder: 0xb7b6_b5b4_b3b2_b1b0,
    ip: 0xbfbe_bdbc_bbba_b9b8,
};

#[test]
fn processor_sections(rt: HostRuntime) {
    let told = section(&PROCESSOR, &PROCESSOR_BYTES);
    assert!(rt; told == Ok(Section::Processor(PROCESSOR_TOLD)));
    let short = section(&PROCESSOR, front(&PROCESSOR_BYTES, 191));
    assert!(rt; short == Err(SectionRefused::Short));
}

// An IA32/X64 section that states two contexts of 8 bytes each, of which one fits.
const X64_BYTES: [u8; 100] = [
    0, 2, 0, 0, 0, 0, 0, 0, 0, 0, 0, 0, 0, 0, 0, 0, 0, 0, 0, 0, 0, 0, 0, 0, 0, 0, 0, 0, 0, 0, 0, 0,
    0, 0, 0, 0, 0, 0, 0, 0, 0, 0, 0, 0, 0, 0, 0, 0, 0, 0, 0, 0, 0, 0, 0, 0, 0, 0, 0, 0, 0, 0, 0, 0,
    1, 0, 8, 0, 2, 0, 0, 0, 3, 0, 0, 0, 0, 0, 0, 0, 4, 0, 0, 0, 0, 0, 0, 0, 1, 0, 8, 0, 0, 0, 0, 0,
    0, 0, 0, 0,
];

fn context(bytes: &[u8], place: u8) -> Option<Context<'_>> {
    context_at(bytes, place)
}

#[test]
fn contexts(rt: HostRuntime) {
    let wanted = Context {
        kind: 1,
        msr: 2,
        mapped: 3,
        array: &[4, 0, 0, 0, 0, 0, 0, 0],
    };
    assert!(rt; context(&X64_BYTES, 0) == Some(wanted));
    assert!(rt; context(&X64_BYTES, 1).is_none());
}
