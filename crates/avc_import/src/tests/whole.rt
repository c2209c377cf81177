//! Faults of whole streams: ties and limits, and which of them is answered.

use super::too_many::repeated;
use super::{RATE, Rate, SETS, Shown, TWO_GROUPS, is_refused, is_shown, joined, movie_of};
use mp_ports::Code;
use std::alloc::Global;
use std::test::Fail;

/// Counts 0, 6, 2 and 4.
const SHOWN: [u8; 28] = [
    0, 0, 1, 0x65, 0x88, 0x84, 8, 0, 0, 1, 0x41, 0x9A, 0x2C, 0x20, 0, 0, 1, 1, 0x9E, 0x45, 0x10, 0,
    0, 1, 1, 0x9E, 0x49, 0x10,
];

/// Counts 0, 6, 2 and 2.
const TIED: [u8; 28] = [
    0, 0, 1, 0x65, 0x88, 0x84, 8, 0, 0, 1, 0x41, 0x9A, 0x2C, 0x20, 0, 0, 1, 1, 0x9E, 0x45, 0x10, 0,
    0, 1, 0x41, 0x9A, 0x44, 0x20,
];

/// Counts 0, 6, 4, 4 and 6.
const TIED_TWICE: [u8; 35] = [
    0, 0, 1, 0x65, 0x88, 0x84, 8, 0, 0, 1, 1, 0x9E, 0x2D, 0x10, 0, 0, 1, 0x41, 0x9A, 0x28, 0x20, 0,
    0, 1, 1, 0x9E, 0x49, 0x10, 0, 0, 1, 0x41, 0x9A, 0x4C, 0x20,
];

/// The greatest prime number of 32 bits: a movie whose pictures last a part of a second by it has no scale.
const PRIME: u32 = 4_294_967_291;

/// Whether the pictures, so many in so many seconds, are refused so.
fn is_refused_at(
    alloc: Global,
    pictures: &[u8],
    num: u32,
    den: u32,
    code: Code,
    place: u64,
) -> Result<bool, Fail> {
    if num == 0 || den == 0 {
        return Ok(false);
    }
    let bytes = joined(alloc, &SETS, pictures)?;
    is_refused(alloc, &bytes, Rate { num, den }, code, place)
}

/// Each of two pictures of one count has its place in the file, and so a tie comes before the limits.
#[test]
fn ties_come_before_limits(rt: HostRuntime) -> Result<(), Fail> {
    let rows: [(u32, u32); 4] = [(25, 1), (PRIME, 1), (1, u32::MAX), (PRIME, u32::MAX)];
    for (num, den) in rows {
        let is = is_refused_at(rt.alloc(), &TIED, num, den, Code::PocTie, 42)?;
        assert!(rt; is, "{num} {den}");
    }
    Ok(())
}

#[test]
fn the_first_of_two_ties_is_answered(rt: HostRuntime) -> Result<(), Fail> {
    let is = is_refused_at(rt.alloc(), &TIED_TWICE, 25, 1, Code::PocTie, 42)?;
    assert!(rt; is);
    Ok(())
}

/// A scale that is too great comes before offsets that are.
#[test]
fn limits_come_in_order(rt: HostRuntime) -> Result<(), Fail> {
    let rows: [(u32, u32, Code); 6] = [
        (PRIME, 1, Code::ScaleLimit),
        (PRIME, u32::MAX, Code::ScaleLimit),
        (PRIME, 1_431_655_766, Code::ScaleLimit),
        (1, u32::MAX, Code::OffsetLimit),
        (1, 1_431_655_766, Code::OffsetLimit),
        (2, u32::MAX, Code::OffsetLimit),
    ];
    for (num, den, code) in rows {
        let is = is_refused_at(rt.alloc(), &SHOWN, num, den, code, 0)?;
        assert!(rt; is, "{num} {den}");
    }
    Ok(())
}

/// The second picture is shown three pictures behind its decoding.
#[test]
fn the_greatest_offset_has_32_bits(rt: HostRuntime) -> Result<(), Fail> {
    let bytes = joined(rt.alloc(), &SETS, &SHOWN)?;
    let rate = Rate {
        num: 1,
        den: 1_431_655_765,
    };
    let is = movie_of(rt.alloc(), &bytes, rate)?.is_ok();
    assert!(rt; is);
    Ok(())
}

/// Bytes behind the last unit that begin none come before what is wrong with the whole.
#[test]
fn bytes_behind_the_units_come_before_the_whole(rt: HostRuntime) -> Result<(), Fail> {
    let alloc = rt.alloc();
    let tied = joined(alloc, &TIED, &[0, 0, 0, 2])?;
    let is = is_refused_at(alloc, &tied, 25, 1, Code::UnitFraming, 49)?;
    assert!(rt; is);
    let shown = joined(alloc, &SHOWN, &[0, 0, 0, 2])?;
    let is = is_refused_at(alloc, &shown, PRIME, 1, Code::UnitFraming, 49)?;
    assert!(rt; is);
    let is = is_refused_at(alloc, &[0, 0, 0, 2], 25, 1, Code::UnitFraming, 21)?;
    assert!(rt; is);
    Ok(())
}

/// Six pictures, 357,914 times, are 2,147,484 pictures: of 2,147,483,647 seconds each they last 2^62 milliseconds and
/// more, and each is shown at most two pictures behind its decoding.
#[test]
fn edits_that_last_too_long(rt: HostRuntime) -> Result<(), Fail> {
    let alloc = rt.alloc();
    let mut pictures = repeated(alloc, &[], &TWO_GROUPS, 357_913)?;
    let bytes = joined(alloc, &SETS, &pictures)?;
    let rate = Rate {
        num: 1,
        den: 2_147_483_647,
    };
    let is = movie_of(alloc, &bytes, rate)?.is_ok();
    assert!(rt; is);
    pictures.extend_from_slice(&TWO_GROUPS)?;
    let code = Code::DurationLimit;
    let is = is_refused_at(alloc, &pictures, 1, 2_147_483_647, code, 0)?;
    assert!(rt; is);
    Ok(())
}

/// Scales and offsets come before edits.
#[test]
fn edits_that_last_too_long_come_last(rt: HostRuntime) -> Result<(), Fail> {
    let pictures = repeated(rt.alloc(), &[], &TWO_GROUPS, 357_914)?;
    let rows: [(u32, u32, Code); 2] = [
        (1, 2_147_483_648, Code::OffsetLimit),
        (PRIME, 2_147_483_647, Code::ScaleLimit),
    ];
    for (num, den, code) in rows {
        let is = is_refused_at(rt.alloc(), &pictures, num, den, code, 0)?;
        assert!(rt; is, "{num} {den}");
    }
    Ok(())
}

/// Low parts of four bits that go from 0 over 7 and 14 to 1: the counts are 0, 7, 14 and 17 (H.264, 8.2.1.1).
const TURNED: [u8; 28] = [
    0, 0, 1, 0x65, 0x88, 0x84, 8, 0, 0, 1, 0x41, 0x9A, 0x2E, 0x20, 0, 0, 1, 0x41, 0x9A, 0x5C, 0x20,
    0, 0, 1, 0x41, 0x9A, 0x62, 0x20,
];

#[test]
fn counts_go_on_where_their_low_parts_turn(rt: HostRuntime) -> Result<(), Fail> {
    let shown = Shown {
        offsets: &[0, 0, 0, 0],
        syncs: &[1, 0, 0, 0],
        sizes: &[8, 8, 8, 8],
        counts: &[1, 1, 1, 1],
        edit: None,
    };
    let is = is_shown(rt.alloc(), &TURNED, &shown)?;
    assert!(rt; is);
    Ok(())
}

/// Low parts 0, 12 and 14: the counts are 0, -4 and -2, and the IDR picture is shown last.
const BELOW: [u8; 21] = [
    0, 0, 1, 0x65, 0x88, 0x84, 8, 0, 0, 1, 0x41, 0x9A, 0x38, 0x20, 0, 0, 1, 1, 0x9E, 0x5D, 0x10,
];

#[test]
fn pictures_are_shown_before_their_idr_picture(rt: HostRuntime) -> Result<(), Fail> {
    let shown = Shown {
        offsets: &[3, 0, 0],
        syncs: &[1, 0, 0],
        sizes: &[8, 8, 8],
        counts: &[1, 1, 1],
        edit: Some((1, 120)),
    };
    let is = is_shown(rt.alloc(), &BELOW, &shown)?;
    assert!(rt; is);
    Ok(())
}
