//! Streams that have too much: bytes in a unit, picture parameter sets, pictures.

ghost use Rattle.std.specs.Prelude.{◌<◌};

use super::faults::{FAULTS, FIELD_SETS, long_unit};
use super::{ONE, RATE, is_refused, joined, movie_of, only_track};
use mp_ports::Code;
use std::alloc::Global;
use std::test::Fail;

/// The longest unit is filler data, behind which there is no picture. A unit of one byte more is refused, before its
/// type.
#[test]
fn units_that_are_too_long(rt: HostRuntime) -> Result<(), Fail> {
    let rows: [(u8, usize, Code, u64); 3] = [
        (0x0C, 16_777_216, Code::NoPicture, 0),
        (0x0C, 16_777_217, Code::UnitLimit, 3),
        (0xEC, 16_777_217, Code::UnitLimit, 3),
    ];
    for (first, len, code, place) in rows {
        let bytes = long_unit(rt.alloc(), first, len)?;
        let is = is_refused(rt.alloc(), &bytes, RATE, code, place)?;
        assert!(rt; is, "{first} {len}");
    }
    Ok(())
}

/// Whether these bytes and then the unit are refused so.
fn is_refused_behind(
    alloc: Global,
    front: &[u8],
    unit: &[u8],
    code: Code,
    place: u64,
) -> Result<bool, Fail> {
    let mut bytes = joined(alloc, front, &[0, 0, 1])?;
    bytes.extend_from_slice(unit)?;
    is_refused(alloc, &bytes, RATE, code, place)
}

/// A set that is too long, in front of each fault and behind it.
#[test]
fn the_length_of_a_set_is_a_fault_in_its_turn(rt: HostRuntime) -> Result<(), Fail> {
    let alloc = rt.alloc();
    let long = long_unit(alloc, 0x68, 65_536)?;
    let first = joined(alloc, &FIELD_SETS, &long)?;
    for (fault, code) in FAULTS {
        let is = is_refused_behind(alloc, &first, fault, Code::UnitLimit, 26)?;
        assert!(rt; is, "{fault:?} behind");
        let is = is_refused_behind(alloc, &FIELD_SETS, fault, code, 26)?;
        assert!(rt; is, "{fault:?}");
    }
    Ok(())
}

/// How many zeros stand behind the set of that number in 40 bits: the code of the number is one bit more than twice as
/// long as the number is written (H.264, 9.1).
fn zeros_behind(number: u8) -> u32
    ensures { result < 64 }
{
    match number {
        0 => 23,
        1..=2 => 21,
        3..=6 => 19,
        7..=14 => 17,
        15..=30 => 15,
        31..=62 => 13,
        63..=126 => 11,
        127..=254 => 9,
        255 => 7,
    }
}

/// A picture parameter set of that number behind its start code. Zeros behind a unit are none of it.
fn picture_set(number: u8) -> [u8; 9] {
    let bits = ((u64::from(number) + 1) << 16) + 0x9C71;
    let bytes = (bits << zeros_behind(number)).to_be_bytes();
    [
        0, 0, 1, 0x68, bytes[3], bytes[4], bytes[5], bytes[6], bytes[7],
    ]
}

/// The sets 0 and 1, and all others but 2: as many as a configuration counts.
fn many_sets(alloc: Global) -> Result<Vec<u8>, Fail> {
    let mut bytes = Vec::from_slice(alloc, &FIELD_SETS)?;
    for number in 3..=255u8 {
        bytes.extend_from_slice(&picture_set(number))?;
    }
    Ok(bytes)
}

/// An IDR picture by set 0.
const PICTURE: [u8; 7] = [0, 0, 1, 0x65, 0x88, 0x82, 4];

/// The end of the configuration: the set of number 255.
const LAST_SET: [u8; 7] = [6, 0x68, 0, 0x80, 0x4E, 0x38, 0x80];

/// Set 1 may stand again.
#[test]
fn a_configuration_has_255_sets(rt: HostRuntime) -> Result<(), Fail> {
    let alloc = rt.alloc();
    let mut bytes = many_sets(alloc)?;
    bytes.extend_from_slice(&[0, 0, 1, 0x68, 0x53, 0x8F, 0x60])?;
    bytes.extend_from_slice(&PICTURE)?;
    let movie = movie_of(alloc, &bytes, RATE)?.expect(&rt, "a movie");
    let is = match only_track(&movie) {
        Some(track) => {
            track.entries.len() == 1
                && track.entries[0].bytes.len() == 1881
                && track.entries[0].bytes.ends_with(&LAST_SET)
        }
        None => false,
    };
    assert!(rt; is);
    Ok(())
}

/// Behind 255 sets: one more, and one more that has another fault, or is a set that changes.
#[test]
fn set_256_is_refused_behind_what_its_unit_says(rt: HostRuntime) -> Result<(), Fail> {
    let alloc = rt.alloc();
    let sets = many_sets(alloc)?;
    let rows: [(&[u8], Code); 6] = [
        (&[0x68, 0x73, 0x8E, 0x20], Code::UnitLimit),
        (&[0xE8, 0x73, 0x8E, 0x20], Code::UnitType),
        (&[0x68, 0x71, 0x63, 0x88], Code::SliceGroups),
        (&[0x68, 0x60], Code::SetSyntax),
        (&[0x68, 0x53, 0x8E, 0x20], Code::SetChange),
        (&[0x68, 0, 0x80, 0x4E, 0x39, 0x80], Code::SetChange),
    ];
    for (unit, code) in rows {
        let is = is_refused_behind(alloc, &sets, unit, code, 2303)?;
        assert!(rt; is, "{unit:?}");
    }
    let pictures = joined(alloc, &sets, &PICTURE)?;
    let is = is_refused_behind(
        alloc,
        &pictures,
        &picture_set(2)[3..],
        Code::UnitLimit,
        2310,
    )?;
    assert!(rt; is);
    Ok(())
}

/// Set 256 in front of each fault, and behind it.
#[test]
fn set_256_is_a_fault_in_its_turn(rt: HostRuntime) -> Result<(), Fail> {
    let alloc = rt.alloc();
    let sets = many_sets(alloc)?;
    let first = joined(alloc, &sets, &picture_set(2))?;
    for (fault, code) in FAULTS {
        let is = is_refused_behind(alloc, &first, fault, Code::UnitLimit, 2303)?;
        assert!(rt; is, "{fault:?} behind");
        let units = joined(alloc, fault, &picture_set(2))?;
        let is = is_refused_behind(alloc, &sets, &units, code, 2303)?;
        assert!(rt; is, "{fault:?} in front");
    }
    Ok(())
}

/// Two IDR pictures with counts of type 2.
const TWO: [u8; 14] = [
    0, 0, 1, 0x65, 0x88, 0x84, 0x80, 0, 0, 1, 0x65, 0x88, 0x82, 0x20,
];

/// Bytes, and behind them others so many times.
pub fn repeated(alloc: Global, front: &[u8], group: &[u8], times: u32) -> Result<Vec<u8>, Fail> {
    let mut bytes = Vec::from_slice(alloc, front)?;
    for _ in 0..times {
        bytes.extend_from_slice(group)?;
    }
    Ok(bytes)
}

/// As many pictures as a movie has.
fn many_pictures(alloc: Global) -> Result<Vec<u8>, Fail> {
    repeated(alloc, &ONE[..18], &TWO, 4_194_304)
}

/// One picture more, and behind it another fault.
#[test]
fn picture_8_388_609_is_refused(rt: HostRuntime) -> Result<(), Fail> {
    let alloc = rt.alloc();
    let mut bytes = many_pictures(alloc)?;
    bytes.extend_from_slice(&TWO[..7])?;
    let is = is_refused_behind(alloc, &bytes, &[0x6E], Code::SampleLimit, 0)?;
    assert!(rt; is);
    Ok(())
}

/// Its own fault comes first.
#[test]
fn picture_8_388_609_has_a_fault(rt: HostRuntime) -> Result<(), Fail> {
    let alloc = rt.alloc();
    let bytes = many_pictures(alloc)?;
    let is = is_refused_behind(alloc, &bytes, &[0x65], Code::SliceSyntax, 58_720_277)?;
    assert!(rt; is);
    Ok(())
}
