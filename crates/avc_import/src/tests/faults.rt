//! Faults of single units, and which of two is answered.

use super::{RATE, Shown, is_refused, is_shown, joined};
use mp_ports::Code;
use std::alloc::Global;
use std::test::Fail;

/// Sets of pictures that may be fields, with counts of type 0: picture parameter set 1 has redundant counts.
pub const FIELD_SETS: [u8; 23] = [
    0, 0, 1, 0x67, 0x42, 0, 0x0A, 0xF4, 0xC9, 0, 0, 1, 0x68, 0xCE, 0x3C, 0x80, 0, 0, 1, 0x68, 0x53,
    0x8F, 0x60,
];

/// Units that are refused behind these sets.
pub const FAULTS: [(&[u8], Code); 13] = [
    (&[0x6E], Code::UnitType),
    (&[0x67], Code::SetSyntax),
    (&[0x67, 0x2C, 0, 0x0A, 0xF4, 0xC9], Code::SetProfile),
    (&[0x67, 0x42, 0, 0x0B, 0xF4, 0xC9], Code::SetChange),
    (&[0x65, 0xB6, 0x08, 0x1C], Code::SetMissing),
    (&[0x65], Code::SliceSyntax),
    (&[0x65, 0xB8, 0x50, 0x38], Code::FieldPicture),
    (&[0x67, 0x42, 0, 0x0A, 0xD3, 0xA6, 0x48], Code::PocType),
    (&[0x61, 0xE2, 0x22, 0x6F], Code::Marking5),
    (&[0x68, 0x71, 0x7C, 0x79], Code::SliceGroups),
    (&[0x61, 0xE2, 0x21, 0xC0], Code::FirstNotIdr),
    (&[0x67, 0x64, 0, 0x0A, 0x91, 0x9D, 0x32, 0x40], Code::Chroma),
    (&[0x65, 0xB4, 0x08, 0x23, 0x80], Code::Redundant),
];

/// The sets, then two units.
fn with_two(alloc: Global, first: &[u8], second: &[u8]) -> Result<Vec<u8>, Fail> {
    let mut bytes = joined(alloc, &FIELD_SETS, &[0, 0, 1])?;
    bytes.extend_from_slice(first)?;
    bytes.extend_from_slice(&[0, 0, 1])?;
    bytes.extend_from_slice(second)?;
    Ok(bytes)
}

/// Of two units the first fault is answered, whichever it is, and before what isn't cut into units behind both.
#[test]
fn the_first_of_two_faults_is_answered(rt: HostRuntime) -> Result<(), Fail> {
    let alloc = rt.alloc();
    for (first, code) in FAULTS {
        for (second, _) in FAULTS {
            let mut bytes = with_two(alloc, first, second)?;
            let is = is_refused(alloc, &bytes, RATE, code, 26)?;
            assert!(rt; is, "{first:?} {second:?}");
            bytes.extend_from_slice(&[0, 0, 0, 2])?;
            let is = is_refused(alloc, &bytes, RATE, code, 26)?;
            assert!(rt; is, "{first:?} {second:?}, and bytes between units");
        }
    }
    Ok(())
}

/// Pictures with the counts 0, 2 and 2.
const TIED: [u8; 21] = [
    0, 0, 1, 0x65, 0x88, 0x82, 4, 0, 0, 1, 1, 0x9E, 0x22, 0x88, 0, 0, 1, 0x41, 0x9A, 0x22, 0x10,
];

/// Whether the sets, then these bytes, the unit and what stands behind it, are refused so.
fn is_refused_between(
    alloc: Global,
    front: &[u8],
    unit: &[u8],
    behind: &[u8],
    code: Code,
    place: u64,
) -> Result<bool, Fail> {
    let mut bytes = joined(alloc, &FIELD_SETS, front)?;
    bytes.extend_from_slice(&[0, 0, 1])?;
    bytes.extend_from_slice(unit)?;
    bytes.extend_from_slice(behind)?;
    is_refused(alloc, &bytes, RATE, code, place)
}

/// A tie is a fault of the whole stream, wherever it stands.
#[test]
fn faults_of_units_come_before_ties(rt: HostRuntime) -> Result<(), Fail> {
    let alloc = rt.alloc();
    let is = is_refused_between(alloc, &TIED[..14], &TIED[17..], &[], Code::PocTie, 40)?;
    assert!(rt; is);
    for (fault, code) in FAULTS {
        let is = is_refused_between(alloc, &[], fault, &TIED, code, 26)?;
        assert!(rt; is, "{fault:?} in front");
        if code != Code::FirstNotIdr {
            let is = is_refused_between(alloc, &TIED, fault, &[], code, 47)?;
            assert!(rt; is, "{fault:?} behind");
        }
    }
    Ok(())
}

#[test]
fn bytes_between_units_come_before_the_unit_behind(rt: HostRuntime) -> Result<(), Fail> {
    for (fault, _) in FAULTS {
        let between = &[0, 0, 0, 2];
        let is = is_refused_between(rt.alloc(), between, fault, &[], Code::UnitFraming, 26)?;
        assert!(rt; is, "{fault:?}");
    }
    Ok(())
}

/// Whether a unit may begin with that byte: the forbidden bit is 0, and it is a slice but for a partition, supplemental
/// information, a set, a delimiter, an end or filler (H.264, table 7-1).
fn is_known(byte: u8) -> bool {
    let kinds: [u8; 9] = [1, 5, 6, 7, 8, 9, 10, 11, 12];
    byte < 128 && kinds.contains(&(byte % 32))
}

#[test]
fn every_other_type_is_refused(rt: HostRuntime) -> Result<(), Fail> {
    for byte in 0..=255u8 {
        if !is_known(byte) {
            let is = is_refused_between(rt.alloc(), &[], &[byte, 0x88], &[], Code::UnitType, 26)?;
            assert!(rt; is, "{byte}");
        }
    }
    Ok(())
}

/// Units that have two faults, and the one that is answered: the type comes before the elements, the elements come
/// before the set that stands already, and before the first slice that isn't one of an IDR picture.
#[test]
fn the_first_of_two_faults_of_a_unit_is_answered(rt: HostRuntime) -> Result<(), Fail> {
    let rows: [(&[u8], Code); 9] = [
        (&[0xE7], Code::UnitType),
        (&[0xE5, 0xB6, 0x08, 0x1C], Code::UnitType),
        (&[0x68], Code::SetSyntax),
        (&[0x68, 0xC5, 0x8E, 0x20], Code::SliceGroups),
        (&[0x61], Code::SliceSyntax),
        (&[0x61, 0x99, 0x88, 0x84], Code::SetMissing),
        (&[0x61, 0x9A, 0x32, 0x10], Code::FieldPicture),
        (&[0x61, 0x99, 0x08, 0x90, 0x80], Code::Redundant),
        (&[0x05, 0x88, 0x82, 0x04], Code::SliceSyntax),
    ];
    for (unit, code) in rows {
        let is = is_refused_between(rt.alloc(), &[], unit, &[], code, 26)?;
        assert!(rt; is, "{unit:?}");
    }
    Ok(())
}

/// A unit of so many bytes behind its start code.
pub fn long_unit(alloc: Global, first: u8, len: usize) -> Result<Vec<u8>, Fail> {
    let mut bytes = joined(alloc, &[0, 0, 1], &[first])?;
    for _ in 1..len {
        bytes.push(0x41)?;
    }
    Ok(bytes)
}

/// The length of a set comes before its type.
#[test]
fn sets_that_are_too_long(rt: HostRuntime) -> Result<(), Fail> {
    let rows: [(u8, usize, Code); 3] = [
        (0x68, 65_536, Code::UnitLimit),
        (0xE8, 65_536, Code::UnitLimit),
        (0xE8, 65_535, Code::UnitType),
    ];
    for (first, len, code) in rows {
        let bytes = long_unit(rt.alloc(), first, len)?;
        let is = is_refused(rt.alloc(), &bytes, RATE, code, 3)?;
        assert!(rt; is, "{first} {len}");
    }
    Ok(())
}

/// A slice of an IDR picture, which stands twice.
const AGAIN: [u8; 16] = [
    0, 0, 0, 1, 0x65, 0x88, 0x84, 0x0C, 0, 0, 0, 1, 0x65, 0x88, 0x84, 0x0C,
];

/// The same with a picture parameter set between, which stands in `SETS`.
const AGAIN_BEHIND_A_SET: [u8; 24] = [
    0, 0, 0, 1, 0x65, 0x88, 0x84, 0x0C, 0, 0, 0, 1, 0x68, 0xCE, 0x38, 0x80, 0, 0, 0, 1, 0x65, 0x88,
    0x84, 0x0C,
];

/// Slices of one IDR number are one picture, but for a set between them, which starts an access unit though it
/// stood before.
#[test]
fn pictures_of_one_number(rt: HostRuntime) -> Result<(), Fail> {
    let one = Shown {
        offsets: &[0],
        syncs: &[1],
        sizes: &[16],
        counts: &[2],
        edit: None,
    };
    let two = Shown {
        offsets: &[0, 0],
        syncs: &[1, 1],
        sizes: &[8, 8],
        counts: &[1, 1],
        edit: None,
    };
    let is = is_shown(rt.alloc(), &AGAIN, &one)?;
    assert!(rt; is);
    let is = is_shown(rt.alloc(), &AGAIN_BEHIND_A_SET, &two)?;
    assert!(rt; is);
    Ok(())
}
