//! Reading tables.
use super::rows::{bytes_of, mend, refusal, set_number};
use super::samples::PLAIN;
use erst_interp::ErstTableRefused;
use std::alloc::Global;
use std::test::Fail;

const FRONT: [u8; 10] = [0x45, 0x52, 0x53, 0x54, 0x70, 0x02, 0, 0, 0, 0x59];

// The plain table has the length and the checksum that were worked out by hand.
#[test]
fn has_the_bytes_of_the_sample(rt: HostRuntime) -> Result<(), Fail> {
    let bytes = bytes_of(rt.alloc(), &PLAIN).ok_or("memory is left")?;
    assert!(rt; bytes.len() == 624 && bytes.starts_with(&FRONT));
    assert!(rt; refusal(rt.alloc(), &bytes).is_none());
    Ok(())
}

// An offset of the plain table where a number is set, and why the table can't be read then.
const BROKEN: [(usize, usize, bool, Option<ErstTableRefused>); 10] = [
    (0, 0x5453_5244, true, Some(ErstTableRefused::Signature)),
    (4, 47, true, Some(ErstTableRefused::Length)),
    (4, 625, true, Some(ErstTableRefused::Length)),
    (4, 0, false, Some(ErstTableRefused::Length)),
    (36, 12, false, Some(ErstTableRefused::Sum)),
    (36, 13, true, Some(ErstTableRefused::HeaderSize)),
    (36, 12, true, None),
    (44, 19, true, Some(ErstTableRefused::Count)),
    (44, 0xffff_ffff, true, Some(ErstTableRefused::Count)),
    (44, 0, true, None),
];

fn refusal_with(
    alloc: Global,
    place: usize,
    number: usize,
    mended: bool,
) -> Result<Option<ErstTableRefused>, Fail> {
    let mut bytes = bytes_of(alloc, &PLAIN).ok_or("memory is left")?;
    set_number(&mut bytes, place, number);
    if mended {
        mend(&mut bytes);
    }
    Ok(refusal(alloc, &bytes))
}

#[test]
fn refuses_the_first_cause(rt: HostRuntime) -> Result<(), Fail> {
    for (place, number, mended, wanted) in &BROKEN {
        assert!(rt;
            refusal_with(rt.alloc(), *place, *number, *mended)? == *wanted,
            "{number} at {place}"
        );
    }
    Ok(())
}

// Whether bytes are refused for this reason, cut to each shorter length.
fn are_refused_shorter(alloc: Global, bytes: &[u8]) -> bool {
    for length in 0..bytes.len() {
        let wanted = if length < 48 {
            ErstTableRefused::Short
        } else {
            ErstTableRefused::Length
        };
        if refusal(alloc, &bytes[..length]) != Some(wanted) {
            return false;
        }
    }
    true
}

// Each shorter length is refused, and bytes after the table change nothing.
#[test]
fn reads_its_own_length(rt: HostRuntime) -> Result<(), Fail> {
    let mut bytes = bytes_of(rt.alloc(), &PLAIN).ok_or("memory is left")?;
    assert!(rt; are_refused_shorter(rt.alloc(), &bytes));
    bytes.push(7)?;
    assert!(rt; refusal(rt.alloc(), &bytes).is_none());
    Ok(())
}
