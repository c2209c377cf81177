//! Edit lists byte by byte as ISO/IEC 14496-12, 8.6.6 lays them out, and the answers that they give.

ghost use Rattle.mp_edits.specs.EditBox.{AreEdits};
ghost use Rattle.mp_edits.specs.Segments.{IsEditList};
ghost use Rattle.std.specs.Prelude.{◌≡◌, option_map};
ghost use Rattle.mp_timeline.specs.declared.segment.Segment.TheVariants.{Empty, Media};

use crate::{edts_len, push_edts, put_elst, read_elst, shift, total};
use mp_boxes::reserve;
use mp_ports::{Bad, Code, Fail, NoMemory};
use mp_timeline::Segment;
use std::alloc::Global;
use std::test::Fail as TestFail;

/// Where the box of each case stands.
const BASE: u64 = 700;

/// 2^62, the first duration and the first start above their limits.
const LIMIT: u64 = 1 << 62;

const fn empty(dur: u64) -> Segment
    ensures { result ≡ Empty dur }
{
    Segment::Empty { dur }
}

const fn media(start: u64, dur: u64) -> Segment
    ensures { result ≡ Media start dur }
{
    Segment::Media { start, dur }
}

/// Whether the body is read as these segments, or as none.
fn is_read(alloc: Global, body: &[u8], wanted: Option<&[Segment]>) -> bool {
    match (read_elst(alloc, body, BASE), wanted) {
        (Ok(Some(edits)), Some(wanted)) => edits.as_slice() == wanted,
        (Ok(None), None) => true,
        _ => false,
    }
}

/// The refusal of a body, if it is refused.
fn refusal(alloc: Global, body: &[u8]) -> Option<Bad> {
    match read_elst(alloc, body, BASE) {
        Err(Fail::Bad(bad)) => Some(bad),
        _ => None,
    }
}

#[test]
fn each_list_is_read(rt: HostRuntime) {
    let in_32_bits =
        b"\0\0\0\0\0\0\0\x02\0\0\x01\xF4\xFF\xFF\xFF\xFF\0\x01\0\0\0\0\x03\xE8\0\0\0\x14\0\x01\0\0";
    assert!(rt; is_read(rt.alloc(), in_32_bits, Some(&[empty(500), media(20, 1000)])));
    let in_64_bits_and_a_byte_more =
        b"\x01\0\0\0\0\0\0\x02\0\0\0\x01\0\0\0\0\xFF\xFF\xFF\xFF\xFF\xFF\xFF\xFF\0\x01\0\0\0\0\
            \0\0\0\0\0\x05\0\0\0\0\x80\0\0\0\0\x01\0\0\xAA";
    assert!(rt;
        is_read(
            rt.alloc(),
            in_64_bits_and_a_byte_more,
            Some(&[empty(1 << 32), media(1 << 31, 5)])
        )
    );
    let empty_at_other_rates =
        b"\0\0\0\0\0\0\0\x02\0\0\0\0\xFF\xFF\xFF\xFF\0\x02\0\x03\0\0\0\0\xFF\xFF\xFF\xFF\0\0\0\0";
    assert!(rt;
        is_read(
            rt.alloc(),
            empty_at_other_rates,
            Some(&[empty(0), empty(0)])
        )
    );
    let up_to_the_limits =
        b"\x01\0\0\0\0\0\0\x01\x3F\xFF\xFF\xFF\xFF\xFF\xFF\xFF\x3F\xFF\xFF\xFF\xFF\xFF\xFF\xFF\
            \0\x01\0\0";
    assert!(rt;
        is_read(
            rt.alloc(),
            up_to_the_limits,
            Some(&[media(LIMIT - 1, LIMIT - 1)])
        )
    );
    let no_entry = b"\0\0\0\0\0\0\0\0";
    assert!(rt; is_read(rt.alloc(), no_entry, None));
}

#[test]
fn each_fault_has_its_place_in_the_order(rt: HostRuntime) {
    let rows: [(&str, &[u8], Code, u64); 12] = [
        ("three bytes", b"\x02\0\0", Code::TableLength, BASE),
        ("version 2", b"\x02\0\0\x01", Code::BoxVersion, BASE),
        ("flags", b"\0\0\0\x01", Code::EditFlags, BASE),
        ("no count", b"\0\0\0\0\0\0\0", Code::TableLength, BASE),
        (
            "a byte too few",
            b"\0\0\0\0\0\0\0\x01\0\0\0\x05\xFF\xFF\xFF\xFE\0\x01\0",
            Code::TableLength,
            BASE,
        ),
        (
            "an entry of version 0 in version 1",
            b"\x01\0\0\0\0\0\0\x01\0\0\0\x05\0\0\0\0\0\x01\0\0",
            Code::TableLength,
            BASE,
        ),
        (
            "the media time -2, at another rate",
            b"\0\0\0\0\0\0\0\x01\0\0\0\x05\xFF\xFF\xFF\xFE\0\x02\0\0",
            Code::EditTime,
            BASE,
        ),
        (
            "rate 2 at the media time 0",
            b"\0\0\0\0\0\0\0\x01\0\0\0\x05\0\0\0\0\0\x02\0\0",
            Code::EditRate,
            BASE,
        ),
        (
            "rate 1 and a fraction",
            b"\0\0\0\0\0\0\0\x01\0\0\0\x05\0\0\0\0\0\x01\0\x01",
            Code::EditRate,
            BASE,
        ),
        (
            "the first entry's rate before the second's time",
            b"\0\0\0\0\0\0\0\x02\0\0\0\x05\0\0\0\0\0\0\0\0\0\0\0\x05\x80\0\0\0\0\x01\0\0",
            Code::EditRate,
            BASE,
        ),
        (
            "2^61 and 2^61 ticks, the last from 2^62 on",
            b"\x01\0\0\0\0\0\0\x02\x20\0\0\0\0\0\0\0\0\0\0\0\0\0\0\0\0\x01\0\0\x20\0\0\0\0\0\0\
                \0\x40\0\0\0\0\0\0\0\0\x01\0\0",
            Code::DurationLimit,
            0,
        ),
        (
            "from 2^62 on",
            b"\x01\0\0\0\0\0\0\x01\0\0\0\0\0\0\0\x05\x40\0\0\0\0\0\0\0\0\x01\0\0",
            Code::StartLimit,
            0,
        ),
    ];
    for (what, body, code, place) in rows {
        assert_eq!(rt;
            refusal(rt.alloc(), body),
            Some(Bad::at(code, place)),
            "{what}"
        );
    }
}

#[test]
fn more_than_65535_entries(rt: HostRuntime) -> Result<(), TestFail> {
    // 65,536 entries of rate 0, of which the first would be refused
    let mut body = vec![in rt.alloc(); 0u8; 8 + 12 * 65536]?;
    body[5] = 1;
    let limit = Bad::at(Code::SegmentLimit, 0);
    assert_eq!(rt; refusal(rt.alloc(), &body), Some(limit));
    Ok(())
}

/// The box, written behind two other bytes.
fn written(alloc: Global, edits: &[Segment]) -> Result<Vec<u8>, NoMemory>
    requires { IsEditList edits.now }
{
    let mut out = Vec::from_slice(alloc, b"ab")?;
    put_elst(edits, &mut out)?;
    Ok(out)
}

#[test]
fn each_list_is_written_in_the_least_version(rt: HostRuntime) {
    let rows: [(Result<Vec<u8>, NoMemory>, &[u8]); 4] = [
        (
            written(rt.alloc(), &[empty(500), media(20, 1000)]),
            b"ab\0\0\0\x28elst\0\0\0\0\0\0\0\x02\0\0\x01\xF4\xFF\xFF\xFF\xFF\0\x01\0\0\0\0\x03\
                \xE8\0\0\0\x14\0\x01\0\0",
        ),
        (
            written(rt.alloc(), &[media(2147483647, 4294967295)]),
            b"ab\0\0\0\x1Celst\0\0\0\0\0\0\0\x01\xFF\xFF\xFF\xFF\x7F\xFF\xFF\xFF\0\x01\0\0",
        ),
        (
            written(rt.alloc(), &[media(2147483648, 1)]),
            b"ab\0\0\0\x24elst\x01\0\0\0\0\0\0\x01\0\0\0\0\0\0\0\x01\0\0\0\0\x80\0\0\0\0\x01\0\0",
        ),
        (
            written(rt.alloc(), &[empty(4294967296)]),
            b"ab\0\0\0\x24elst\x01\0\0\0\0\0\0\x01\0\0\0\x01\0\0\0\0\xFF\xFF\xFF\xFF\xFF\xFF\
                \xFF\xFF\0\x01\0\0",
        ),
    ];
    for (out, wanted) in rows.iter() {
        assert!(rt; matches!(out, Ok(out) if out.as_slice() == *wanted));
    }
}

/// The edit box of these edits, if they need one.
fn edit_box(alloc: Global, edits: Option<&[Segment]>) -> Result<Vec<u8>, NoMemory>
    requires { AreEdits (option_map (λ list. list.now) edits) }
{
    let mut out = Vec::new(alloc);
    reserve(&mut out, edts_len(edits).min(100) as u32)?;
    push_edts(edits, &mut out);
    Ok(out)
}

#[test]
fn edit_box_stands_only_where_there_are_edits(rt: HostRuntime) -> Result<(), TestFail> {
    let one = edit_box(rt.alloc(), Some(&[empty(500)]))?;
    assert_eq!(rt;
        one.as_slice(),
        b"\0\0\0\x24edts\0\0\0\x1Celst\0\0\0\0\0\0\0\x01\0\0\x01\xF4\xFF\xFF\xFF\xFF\0\x01\0\
            \0"
            .as_slice()
    );
    assert!(rt; edit_box(rt.alloc(), None)?.is_empty());
    Ok(())
}

#[test]
fn starts_are_shifted(rt: HostRuntime) {
    let mut edits = [media(20, 7), empty(3), media(LIMIT - 8, 0)];
    shift(&mut edits, 7);
    assert_eq!(rt; edits, [media(27, 7), empty(3), media(LIMIT - 1, 0)]);
    shift(&mut edits, -27);
    assert_eq!(rt; edits, [media(0, 7), empty(3), media(LIMIT - 28, 0)]);
    assert_eq!(rt; total(&edits), 10);
}
