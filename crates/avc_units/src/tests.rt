//! Streams, units and bits byte by byte, as ITU-T H.264 lays them out (Annex B, 7.3.1, 7.2 and
//! 9.1), and what they give.

ghost use Rattle.std.specs.Prelude.{◌≡◌, ◌≤◌, [], IfOk};

use super::*;
use mp_ports::{Bad, Code, Folder, MemFile, MemFolder};
use std::alloc::Global;
use std::test::Fail;

/// The length of a large window.
const LARGE: usize = 4096;

/// The length of the longest unit that is read.
const LONGEST: usize = 16_777_216;

/// A folder of one file, whose calls of these numbers fail; opening it is the first.
fn folder_of(alloc: Global, bytes: Vec<u8>, failing: &[u64]) -> Result<MemFolder, Fail>
    ensures { IfOk result (λ folder. folder.folder.opened ≡ []) }
{
    let mut files = Vec::new(alloc);
    files.push(MemFile {
        name: String::from_str(alloc, "a")?,
        bytes,
    })?;
    Ok(MemFolder::new(alloc, files, Vec::from_slice(alloc, failing)?))
}

/// The places and lengths of the first units of a stream, read through a window of that length, and what comes behind.
fn units(
    alloc: Global,
    bytes: &[u8],
    window: usize,
) -> Result<(Vec<(u64, u32)>, Option<UnitFail>), Fail>
    requires { 16 ≤ window }
{
    let mut folder = folder_of(alloc, Vec::from_slice(alloc, bytes)?, &[])?;
    let mut window = vec![in alloc; 0u8; window]?;
    let mut spans = Vec::new(alloc);
    let Ok(file) = folder.open("a") else {
        return Ok((spans, Some(UnitFail::ReadFault)));
    };
    let mut reader = UnitReader::new(file, folder.size(file));
    for _ in 0..9 {
        match reader.next(&mut folder, &mut window) {
            Ok(Some(span)) => spans.push((span.from, span.len))?,
            Ok(None) => return Ok((spans, None)),
            Err(fail) => return Ok((spans, Some(fail))),
        }
    }
    Ok((spans, Some(UnitFail::ReadFault)))
}

/// A refusal of the framing at that place.
fn framing(place: u64) -> Option<UnitFail> {
    Some(UnitFail::Bad(Bad::at(Code::UnitFraming, place)))
}

#[test]
fn streams_are_cut_into_units(rt: HostRuntime) -> Result<(), Fail> {
    let rows: [(&[u8], &[(u64, u32)], Option<UnitFail>); 16] = [
        // units behind start codes of three and four bytes, in front of zeros
        (b"\0\0\x01\x09\x10\0\0\0\x01\x67", &[(3, 2), (9, 1)], None),
        (
            b"\0\0\0\x01\x67\x42\0\x0A\xDA\x79\0\0\0\x01\x68\xCE\x38\x80\0\0\x01\x65\x88\x84\x80",
            &[(4, 6), (14, 4), (21, 4)],
            None,
        ),
        (b"\0\0\x01\x01", &[(3, 1)], None),
        // zeros at the end aren't the unit's, zeros inside are
        (b"\0\0\x01\x41\0", &[(3, 1)], None),
        (b"\0\0\x01\x41\0\0", &[(3, 1)], None),
        (b"\0\0\x01\x41\0\x41", &[(3, 3)], None),
        (b"\0\0\x01\x41\0\0\x02", &[(3, 4)], None),
        (b"\0\0\x01\x41\0\0\x03", &[(3, 4)], None),
        // no units
        (b"", &[], None),
        (b"\0\0\0", &[], None),
        // a byte that is no start code
        (b"\x01", &[], framing(0)),
        (b"\0\x01", &[], framing(1)),
        (b"\0\0\x01\x41\0\0\0\x02", &[(3, 1)], framing(7)),
        // an empty unit
        (b"\0\0\x01", &[], framing(3)),
        (b"\0\0\x01\0", &[], framing(3)),
        (b"\0\0\x01\0\0\x01", &[], framing(3)),
    ];
    for (bytes, spans, end) in rows {
        for window in [16, LARGE] {
            let (got, behind) = units(rt.alloc(), bytes, window)?;
            assert!(rt; got.as_slice() == spans);
            assert!(rt; behind == end);
        }
    }
    Ok(())
}

#[test]
fn zeros_go_on_over_reads(rt: HostRuntime) -> Result<(), Fail> {
    for zeros in [100, 16_382, 36_000_usize] {
        let mut bytes = Vec::from_slice(rt.alloc(), b"\0\0\x01\x41")?;
        bytes.resize(4 + zeros, 0)?;
        bytes.extend_from_slice(b"\x01\x41")?;
        for window in [16, LARGE] {
            let (got, behind) = units(rt.alloc(), &bytes, window)?;
            assert!(rt; got.as_slice() == [(3, 1), (5 + zeros as u64, 1)].as_slice());
            assert!(rt; behind == None);
        }
    }
    Ok(())
}

/// A unit that is longer than one read, so that it and the start code behind it end at each place of a
/// window of 16 bytes.
#[test]
fn units_go_on_over_windows(rt: HostRuntime) -> Result<(), Fail> {
    for len in 16_368..16_404_u32 {
        let mut bytes = Vec::from_slice(rt.alloc(), b"\0\0\x01")?;
        bytes.resize(3 + len as usize, 0x41)?;
        bytes.extend_from_slice(b"\0\0\x01\x41")?;
        for window in [16, LARGE] {
            let (got, behind) = units(rt.alloc(), &bytes, window)?;
            assert!(rt; got.as_slice() == [(3, len), (6 + u64::from(len), 1)].as_slice());
            assert!(rt; behind == None);
        }
    }
    Ok(())
}

/// What a stream of one unit of that length gives.
fn only_unit(alloc: Global, len: usize) -> Result<Result<Option<UnitSpan>, UnitFail>, Fail>
    requires { len ≤ 33554432 }
{
    let mut bytes = vec![in alloc; 0x41u8; 3 + len]?;
    bytes[0] = 0;
    bytes[1] = 0;
    bytes[2] = 1;
    let mut folder = folder_of(alloc, bytes, &[])?;
    let Ok(file) = folder.open("a") else {
        return Ok(Err(UnitFail::ReadFault));
    };
    let mut window = vec![in alloc; 0u8; LARGE]?;
    Ok(UnitReader::new(file, folder.size(file)).next(&mut folder, &mut window))
}

#[test]
fn a_unit_of_the_greatest_length_is_read(rt: HostRuntime) -> Result<(), Fail> {
    let span = UnitSpan {
        from: 3,
        len: LONGEST as u32,
    };
    assert!(rt; only_unit(rt.alloc(), LONGEST)? == Ok(Some(span)));
    let long = UnitFail::Bad(Bad::at(Code::UnitLimit, 3));
    assert!(rt; only_unit(rt.alloc(), LONGEST + 1)? == Err(long));
    Ok(())
}

#[test]
fn a_failed_read_moves_nothing(rt: HostRuntime) -> Result<(), Fail> {
    let mut bytes = Vec::from_slice(rt.alloc(), b"\0\0\x01")?;
    bytes.resize(20_003, 0x41)?;
    bytes.extend_from_slice(b"\0\0\x01A")?;
    // the second read for the first unit
    let mut folder = folder_of(rt.alloc(), bytes, &[3])?;
    let Ok(file) = folder.open("a") else {
        return Ok(());
    };
    let mut window = [0u8; 16];
    let mut reader = UnitReader::new(file, folder.size(file));
    assert!(rt; reader.next(&mut folder, &mut window) == Err(UnitFail::ReadFault));
    assert!(rt;
        reader.next(&mut folder, &mut window)
            == Ok(Some(UnitSpan {
                from: 3,
                len: 20_000
            }))
    );
    assert!(rt;
        reader.next(&mut folder, &mut window)
            == Ok(Some(UnitSpan {
                from: 20_006,
                len: 1
            }))
    );
    Ok(())
}

#[test]
fn emulation_bytes_are_removed(rt: HostRuntime) -> Result<(), Fail> {
    let rows: [(&[u8], &[u8]); 7] = [
        (b"", b""),
        (b"\x65\0\0\x03\x01", b"\x65\0\0\x01"),
        (b"\0\0\x03\0\0\x03", b"\0\0\0\0"),
        (b"\0\0\x03\x03", b"\0\0\x03"),
        (b"\0\0\0\x03", b"\0\0\0"),
        (b"\x41\0\0\x03", b"\x41\0\0"),
        (b"\0\x03\x03\0\x01", b"\0\x03\x03\0\x01"),
    ];
    for (unit, cleaned) in rows {
        assert!(rt; clean(rt.alloc(), unit)?.as_slice() == cleaned);
    }
    Ok(())
}

/// Tables 9-2 and 9-3 of the standard: bits from the highest of the bytes on, the code and the signed number.
#[test]
fn codes_are_read(rt: HostRuntime) {
    let rows: [(&[u8], Option<u32>, Option<i32>); 11] = [
        (&[0x80], Some(0), Some(0)),
        (&[0x40], Some(1), Some(1)),
        (&[0x60], Some(2), Some(-1)),
        (&[0x20], Some(3), Some(2)),
        (&[0x28], Some(4), Some(-2)),
        (&[0x3F], Some(6), Some(-3)),
        (&[0x10], Some(7), Some(4)),
        // the greatest: 31 zeros, and 32 ones
        (
            &[0, 0, 0, 1, 0xFF, 0xFF, 0xFF, 0xFF],
            Some(4_294_967_294),
            Some(-2_147_483_647),
        ),
        (
            &[0, 0, 0, 1, 0xFF, 0xFF, 0xFF, 0xFD],
            Some(4_294_967_293),
            Some(2_147_483_647),
        ),
        // 32 zeros, and bits that end
        (&[0, 0, 0, 0, 0xFF, 0xFF, 0xFF, 0xFF, 0xFF], None, None),
        (&[0x02], None, None),
    ];
    for (bytes, code, signed) in rows {
        assert!(rt; Bits::new(bytes).ue() == code);
        assert!(rt; Bits::new(bytes).se() == signed);
    }
}

#[test]
fn nothing_is_passed_where_nothing_is_read(rt: HostRuntime) {
    let mut bits = Bits::new(&[0x02]);
    assert!(rt; bits.take(4) == Some(0));
    assert!(rt; bits.ue() == None);
    assert!(rt; bits.se() == None);
    assert!(rt; bits.take(5) == None);
    assert!(rt; bits.take(4) == Some(2));
    assert!(rt; bits.take(0) == Some(0));
    assert!(rt; bits.take(1) == None);
}

/// Elements one after another, each by its own call: the bits 101, 00110, 1, 010, 011, 00101 and 000000.
#[test]
fn elements_are_read_in_turn(rt: HostRuntime) {
    let mut bits = Bits::new(&[0b1010_0110, 0b1010_0110, 0b0101_0000, 0b0000_0000]);
    assert!(rt; bits.read_u(3) == Ok(5));
    assert!(rt; bits.read_ue() == Ok(5));
    assert!(rt; bits.read_flag() == Ok(true));
    assert!(rt; bits.read_ue_upto(1) == Ok(1));
    assert!(rt; bits.read_se() == Ok(-1));
    assert!(rt; bits.read_se_within(-2, -2) == Ok(-2));
    assert!(rt; bits.read_ue() == Err(ElementFail::Syntax));
    assert!(rt; Bits::new(&[0x28]).read_ue_upto(3) == Err(ElementFail::Syntax));
    assert!(rt; Bits::new(&[0x28]).read_se_within(-1, 9) == Err(ElementFail::Syntax));
    assert!(rt; ElementFail::Syntax.code(Code::SetSyntax) == Code::SetSyntax);
    assert!(rt; ElementFail::Refused(Code::Chroma).code(Code::SetSyntax) == Code::Chroma);
}
