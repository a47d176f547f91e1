//! A section as Linux lays it out in `struct cper_sec_pcie`, the names of its bits, and its counts.

use cper_pcie::{
    PcieCounts, PcieDevice, PcieRefused, PcieSection, correctable_name, is_pcie, read_pcie,
    uncorrectable_name,
};
use ras_base::NoMemory;
use uuid::Uuid;

// The bytes that aren't 0: a device and the status words are valid, 0000:3b:00.1 is 8086:1500, and
// it had a receiver error and a bad packet of the transaction layer.
const RUNS: [(usize, &[u8]); 5] = [
    (0, &[0x88]),
    (24, &[0x86, 0x80, 0x00, 0x15]),
    (31, &[0x01]),
    (35, &[0x3b]),
    (128, &[0x41]),
];

const ADAPTER: PcieDevice = PcieDevice {
    segment: 0,
    bus: 0x3b,
    device: 0,
    function: 1,
    vendor: 0x8086,
    id: 0x1500,
};

const TWO_CORRECTABLE: PcieSection = PcieSection {
    device: Some(ADAPTER),
    uncor: Some(0),
    cor: Some(0x41),
};

// A section without any field.
const EMPTY: PcieSection = PcieSection {
    device: None,
    uncor: None,
    cor: None,
};

fn section_bytes() -> [u8; 208] {
    let mut bytes = [0u8; 208];
    for (place, run) in RUNS {
        for (i, byte) in run.iter().enumerate() {
            if let Some(there) = bytes.get_mut(place.saturating_add(i)) {
                *there = *byte;
            }
        }
    }
    bytes
}

#[test]
fn reads_a_section(rt: HostRuntime) {
    let bytes = section_bytes();
    assert_eq!(rt; read_pcie(&bytes), Ok(TWO_CORRECTABLE));
    assert_eq!(rt; read_pcie(&[0; 207]), Err(PcieRefused::Short));
    assert_eq!(rt; read_pcie(&[0; 208]), Ok(EMPTY));
}

#[test]
fn knows_its_guid(rt: HostRuntime) {
    let sections = Uuid::from_u128(0xd995e954_bbc1_430f_ad91_b44dcb3c6f35);
    assert!(rt; is_pcie(sections));
    assert!(rt; !is_pcie(Uuid::nil()));
}

#[test]
fn names_bits(rt: HostRuntime) {
    assert_eq!(rt; correctable_name(0), Some(b"receiver-error".as_slice()));
    assert_eq!(rt; correctable_name(6), Some(b"bad-tlp".as_slice()));
    assert_eq!(rt; correctable_name(1), None);
    assert_eq!(rt;
        uncorrectable_name(20),
        Some(b"unsupported-request".as_slice())
    );
    assert_eq!(rt; uncorrectable_name(26), None);
}

#[test]
fn counts_each_function(rt: HostRuntime) -> Result<(), NoMemory> {
    let fatal = PcieSection {
        uncor: Some(0xffff_ffff),
        ..TWO_CORRECTABLE
    };
    let mut counts = PcieCounts::new(rt.alloc());
    for section in [TWO_CORRECTABLE, EMPTY, fatal] {
        counts.add(&section)?;
    }
    assert_eq!(rt; counts.len(), 2);
    if counts.len() == 2 {
        assert_eq!(rt; counts.row(0), (Some(ADAPTER), 32, 4));
        assert_eq!(rt; counts.row(1), (None, 0, 0));
    }
    Ok(())
}
