//! Tables of heads, of containers, of headers and of full boxes, each computed by hand from
//! ISO/IEC 14496-12, 4.2.

ghost use Rattle.std.specs.Prelude.{◌<◌, ◌^◌, length};

use crate::{
    BoxHead, ChildBox, FIRST_FIELD, FIRST_ROW, Span, at_most_one, check_boxes, check_counted,
    check_full_box, child_count, first_child, flags, head_of, next_box, next_child, one,
    one_of_two, row_count, version,
};
use mp_ports::{Bad, Code};
use std::test;

// The first bytes of a box: a size, a type, 64 bits more, and zeros.
fn front_of(size: u32, kind: &[u8; 4], wide: u64) -> [u8; 24] {
    let mut front = [0; 24];
    front[..4].copy_from_slice(&size.to_be_bytes());
    front[4..8].copy_from_slice(kind);
    front[8..16].copy_from_slice(&wide.to_be_bytes());
    front
}

// The header's and the box's length, where `rest` bytes are left.
fn read(size: u32, kind: &[u8; 4], wide: u64, rest: u64, top: bool) -> Result<(u64, u64), Code> {
    let front = front_of(size, kind, wide);
    let few = rest.min(24) as usize;
    let found = head_of(&front[..few], rest, top)?;
    Ok((found.head, found.len))
}

#[test]
fn hostile_heads(rt: HostRuntime) -> Result<(), test::Fail> {
    const CUT: Result<(u64, u64), Code> = Err(Code::BoxCut);
    const SIZE: Result<(u64, u64), Code> = Err(Code::BoxSize);
    let all = u64::MAX;
    let rows = [
        // sizes of a container's box, where 100 bytes are left
        (0, b"free", 0, 100, false, SIZE),
        (1, b"free", 15, 100, false, SIZE),
        (1, b"free", 16, 100, false, Ok((16, 16))),
        (2, b"free", 0, 100, false, SIZE),
        (3, b"free", 0, 100, false, SIZE),
        (4, b"free", 0, 100, false, SIZE),
        (5, b"free", 0, 100, false, SIZE),
        (6, b"free", 0, 100, false, SIZE),
        (7, b"free", 0, 100, false, SIZE),
        (8, b"free", 0, 100, false, Ok((8, 8))),
        (9, b"free", 0, 100, false, Ok((8, 9))),
        (15, b"free", 0, 100, false, Ok((8, 15))),
        (16, b"free", 0, 100, false, Ok((8, 16))),
        (100, b"free", 0, 100, false, Ok((8, 100))),
        (101, b"free", 0, 100, false, CUT),
        (u32::MAX, b"free", 0, 100, false, CUT),
        (
            u32::MAX,
            b"free",
            0,
            4_294_967_295,
            false,
            Ok((8, 4_294_967_295)),
        ),
        (u32::MAX, b"free", 0, 4_294_967_294, false, CUT),
        // sizes of 64 bits
        (1, b"free", 0, 100, false, SIZE),
        (1, b"free", 0, 100, true, SIZE),
        (1, b"free", 8, 100, false, SIZE),
        (1, b"free", 17, 100, false, Ok((16, 17))),
        (1, b"free", 101, 100, false, CUT),
        (1, b"free", 1 << 63, all, true, Ok((16, 1 << 63))),
        (1, b"free", 1 << 63, (1 << 63) - 1, true, CUT),
        (1, b"free", all, all, true, Ok((16, all))),
        (1, b"free", all, all - 1, true, CUT),
        // size 0: up to the end of the file, and in no container
        (0, b"mdat", 0, 8, true, Ok((8, 8))),
        (0, b"mdat", 0, 100, true, Ok((8, 100))),
        (0, b"mdat", 0, all, true, Ok((8, all))),
        (0, b"\0\0\0\0", 0, 9, true, Ok((8, 9))),
        (0, b"mdat", 0, 7, true, CUT),
        (0, b"mdat", 0, 7, false, CUT),
        (0, b"mdat", 0, 8, false, SIZE),
        // `uuid`, with 16 bytes more
        (23, b"uuid", 0, 100, false, SIZE),
        (24, b"uuid", 0, 100, false, Ok((24, 24))),
        (24, b"uuid", 0, 24, false, Ok((24, 24))),
        (24, b"uuid", 0, 23, false, CUT),
        (8, b"uuid", 0, 8, false, CUT),
        (0, b"uuid", 0, 23, false, CUT),
        (0, b"uuid", 0, 24, true, Ok((24, 24))),
        (0, b"uuid", 0, 24, false, SIZE),
        (1, b"uuid", 31, 100, false, SIZE),
        (1, b"uuid", 32, 100, false, Ok((32, 32))),
        (1, b"uuid", 32, 32, false, Ok((32, 32))),
        (1, b"uuid", 32, 31, false, CUT),
        (1, b"uuid", 0, 31, false, CUT),
    ];
    for (size, kind, wide, rest, top, wanted) in rows {
        assert_eq!(rt;
            read(size, kind, wide, rest, top),
            wanted,
            "size {size} wide {wide} rest {rest}"
        );
    }
    // a header that is cut at each byte
    for rest in 0..8 {
        assert_eq!(rt; read(8, b"free", 0, rest, true), CUT, "rest {rest}");
    }
    for rest in 0..16 {
        assert_eq!(rt; read(1, b"free", 16, rest, true), CUT, "rest {rest}");
    }
    Ok(())
}

// The places of the boxes' ends in a body that stands at 1000, or the fault.
fn ends(bytes: &[u8]) -> Result<(usize, usize), Bad>
    requires { length bytes.now < 2 ^ 32 }
{
    let first = match next_box(bytes, 0, 1000)? {
        Some(found) => found.len,
        None => return Ok((0, 0)),
    };
    match next_box(bytes, first, 1000)? {
        Some(found) => Ok((first, found.place + found.len)),
        None => Ok((first, first)),
    }
}

#[test]
fn boxes_in_a_row(rt: HostRuntime) -> Result<(), test::Fail> {
    let rows: [(&[u8], Result<(usize, usize), Bad>); 6] = [
        (b"", Ok((0, 0))),
        (b"\0\0\0\x09freeX", Ok((9, 9))),
        (b"\0\0\0\x09freeX\0\0\0\x08skip", Ok((9, 17))),
        // one byte past the container, and one byte behind the last box
        (
            b"\0\0\0\x09freeX\0\0\0\x09skip",
            Err(Bad::at(Code::BoxCut, 1009)),
        ),
        (b"\0\0\0\x08free\0", Err(Bad::at(Code::BoxCut, 1008))),
        (b"\0\0\0\x00free", Err(Bad::at(Code::BoxSize, 1000))),
    ];
    for (bytes, wanted) in rows {
        let len = bytes.len();
        assert!(rt; len < 100);
        assert_eq!(rt; ends(bytes), wanted, "of {len} bytes");
    }
    Ok(())
}

// The one child of that type, of a body that stands at 1000 and is whole boxes.
fn child(bytes: &[u8], kind: &[u8; 4]) -> Result<Span, Bad>
    requires { length bytes.now < 2 ^ 32 }
{
    check_boxes(bytes, 1000)?;
    one(bytes, 1000, *kind)
}

// The same, where there may be none.
fn child_if_any(bytes: &[u8], kind: &[u8; 4]) -> Result<Option<Span>, Bad>
    requires { length bytes.now < 2 ^ 32 }
{
    check_boxes(bytes, 1000)?;
    at_most_one(bytes, 1000, *kind)
}

#[test]
fn children(rt: HostRuntime) -> Result<(), test::Fail> {
    // a free box with the byte X, a box of 64-bit size with the bytes YZ, and an empty one
    let bytes = b"\0\0\0\x09freeX\0\0\0\x01wide\0\0\0\0\0\0\0\x12YZ\0\0\0\x08skip";
    let free = Span {
        from: 8,
        to: 9,
        place: 1000,
    };
    let wide = Span {
        from: 25,
        to: 27,
        place: 1009,
    };
    let skip = Span {
        from: 35,
        to: 35,
        place: 1027,
    };
    for (kind, span) in [(b"free", free), (b"wide", wide), (b"skip", skip)] {
        assert_eq!(rt; child(bytes, kind), Ok(span));
        assert_eq!(rt; child_if_any(bytes, kind), Ok(Some(span)));
    }
    assert_eq!(rt; child(bytes, b"moov"), Err(Bad::at(Code::BoxMissing, 1035)));
    assert_eq!(rt; child_if_any(bytes, b"moov"), Ok(None));
    assert_eq!(rt; child(b"", b"moov"), Err(Bad::at(Code::BoxMissing, 1000)));
    // the second of three
    let thrice = b"\0\0\0\x09freeX\0\0\0\x08skip\0\0\0\x08free\0\0\0\x08free";
    assert_eq!(rt; child(thrice, b"free"), Err(Bad::at(Code::BoxTwice, 1017)));
    assert_eq!(rt;
        child_if_any(thrice, b"free"),
        Err(Bad::at(Code::BoxTwice, 1017))
    );
    // whether the body is whole boxes is asked first
    let faulty = b"\0\0\0\x08free\0\0\0\x08free\0\0\0\x07skip";
    assert_eq!(rt; child(faulty, b"free"), Err(Bad::at(Code::BoxSize, 1016)));
    Ok(())
}

// The one sample size box, of either type (8.7.3), in a body that stands at 1000.
fn sizes_box(bytes: &[u8]) -> Result<ChildBox, Bad>
    requires { length bytes.now < 2 ^ 32 }
{
    check_boxes(bytes, 1000)?;
    one_of_two(bytes, 1000, *b"stsz", *b"stz2")
}

#[test]
fn one_child_of_two_types(rt: HostRuntime) -> Result<(), test::Fail> {
    // type, and where the body begins and ends and the box begins
    let found = |kind: &[u8; 4], from: usize, to: usize, place: u64| {
        let span = Span { from, to, place };
        Ok(ChildBox { kind: *kind, span })
    };
    let rows: [(&[u8], Result<ChildBox, Bad>); 9] = [
        (b"", Err(Bad::at(Code::BoxMissing, 1000))),
        (b"\0\0\0\x08stco", Err(Bad::at(Code::BoxMissing, 1008))),
        (b"\0\0\0\x09stszX", found(b"stsz", 8, 9, 1000)),
        (
            b"\0\0\0\x08stco\0\0\0\x0Astz2YZ",
            found(b"stz2", 16, 18, 1008),
        ),
        // the second of the two types in the file, whichever type the first has
        (
            b"\0\0\0\x08stsz\0\0\0\x08stz2\0\0\0\x08stsz",
            Err(Bad::at(Code::BoxTwice, 1008)),
        ),
        (
            b"\0\0\0\x08stz2\0\0\0\x08stsz\0\0\0\x08stz2",
            Err(Bad::at(Code::BoxTwice, 1008)),
        ),
        (
            b"\0\0\0\x09stszX\0\0\0\x08stco\0\0\0\x08stsz",
            Err(Bad::at(Code::BoxTwice, 1017)),
        ),
        (
            b"\0\0\0\x08stz2\0\0\0\x08stz2",
            Err(Bad::at(Code::BoxTwice, 1008)),
        ),
        // whether the body is whole boxes is asked first
        (
            b"\0\0\0\x08stsz\0\0\0\x08stsz\0\0\0\x09stco",
            Err(Bad::at(Code::BoxCut, 1016)),
        ),
    ];
    for (bytes, wanted) in rows {
        let len = bytes.len();
        assert!(rt; len < 100);
        assert_eq!(rt; sizes_box(bytes), wanted, "of {len} bytes");
    }
    Ok(())
}

// The first and the second track of a body that stands at 1000, and how many there are.
fn tracks(bytes: &[u8]) -> Result<(Option<BoxHead>, Option<BoxHead>, usize), Bad>
    requires { length bytes.now < 2 ^ 32 }
{
    check_boxes(bytes, 1000)?;
    let count = child_count(bytes, 1000, *b"trak");
    let first = first_child(bytes, 1000, *b"trak");
    let second = match next_child(bytes, 0, 1000, *b"trak") {
        Some(child) => next_child(bytes, child.place + child.len, 1000, *b"trak"),
        None => None,
    };
    Ok((first, second, count))
}

#[test]
fn children_in_a_row(rt: HostRuntime) -> Result<(), test::Fail> {
    let track = |place: usize, head: usize, len: usize| {
        let kind = *b"trak";
        Some(BoxHead {
            kind,
            place,
            head,
            len,
        })
    };
    let rows: [(
        &[u8],
        Result<(Option<BoxHead>, Option<BoxHead>, usize), Bad>,
    ); 6] = [
        (b"", Ok((None, None, 0))),
        (b"\0\0\0\x08mvhd", Ok((None, None, 0))),
        (b"\0\0\0\x09trakX", Ok((track(0, 8, 9), None, 1))),
        (
            b"\0\0\0\x08mvhd\0\0\0\x09trakX\0\0\0\x08udta\0\0\0\x0AtrakYZ",
            Ok((track(8, 8, 9), track(25, 8, 10), 2)),
        ),
        // a size of 64 bits
        (
            b"\0\0\0\x01trak\0\0\0\0\0\0\0\x11X\0\0\0\x08trak\0\0\0\x08trak",
            Ok((track(0, 16, 17), track(17, 8, 8), 3)),
        ),
        (
            b"\0\0\0\x08trak\0\0\0\x09trak",
            Err(Bad::at(Code::BoxCut, 1008)),
        ),
    ];
    for (bytes, wanted) in rows {
        let len = bytes.len();
        assert!(rt; len < 100);
        assert_eq!(rt; tracks(bytes), wanted, "of {len} bytes");
    }
    Ok(())
}

#[test]
fn counted_boxes(rt: HostRuntime) -> Result<(), test::Fail> {
    let short = Err(Bad::at(Code::TableLength, PLACE));
    // the number that is said, and the least length of a body
    let rows: [(&[u8], u32, usize, Result<(), Bad>); 12] = [
        (b"", 0, 4, Ok(())),
        (b"", 1, 4, short),
        (b"\0\0\0\x0Curl abcd", 0, 4, short),
        (b"\0\0\0\x0Curl abcd", 1, 4, Ok(())),
        (b"\0\0\0\x0Curl abcd", 2, 4, short),
        (b"\0\0\0\x0Curl abcd", 4_294_967_295, 4, short),
        // a body of one byte less, and one of three bytes between others
        (b"\0\0\0\x0Curl abcd", 1, 5, short),
        (
            b"\0\0\0\x0Curl abcd\0\0\0\x0Burl abc\0\0\0\x0Durn abcde",
            3,
            4,
            short,
        ),
        (
            b"\0\0\0\x0Curl abcd\0\0\0\x0Burl abc\0\0\0\x0Durn abcde",
            3,
            3,
            Ok(()),
        ),
        // the header is longer, and no part of the body
        (b"\0\0\0\x01url \0\0\0\0\0\0\0\x13abc", 1, 4, short),
        // the boxes are asked first
        (
            b"\0\0\0\x0Curl abcd\0\0\0\x0Curn abc",
            1,
            4,
            Err(Bad::at(Code::BoxCut, 1012)),
        ),
        (
            b"\0\0\0\x0Burl abc\0\0\0\x07urn ",
            2,
            4,
            Err(Bad::at(Code::BoxSize, 1011)),
        ),
    ];
    for (bytes, count, least, wanted) in rows {
        let len = bytes.len();
        assert_eq!(rt;
            check_counted(bytes, 1000, count, least, PLACE),
            wanted,
            "{count} in {len} bytes"
        );
    }
    Ok(())
}

#[test]
fn versions_and_flags(rt: HostRuntime) {
    // the first byte, and the three behind it
    let rows: [(&[u8; FIRST_FIELD], u32, u32); 4] = [
        (b"\0\0\0\0", 0, 0),
        (b"\x01\0\0\x07", 1, 7),
        (b"\xFE\x01\x02\x03", 254, 66051),
        (b"\0\xFF\xFF\xFF", 0, 16_777_215),
    ];
    for (body, wanted, bits) in rows {
        assert_eq!(rt; version(body), wanted);
        assert_eq!(rt; flags(body), bits);
    }
}

// Where the box of each case stands.
const PLACE: u64 = 700;

#[test]
fn full_boxes(rt: HostRuntime) {
    let cut = Err(Bad::at(Code::TableLength, PLACE));
    let new = Err(Bad::at(Code::BoxVersion, PLACE));
    // the newest version, and where the fields end
    let rows: [(&[u8], u32, usize, Result<(), Bad>); 11] = [
        // three bytes, of which the first is too new a version, and four
        (b"", 1, 4, cut),
        (b"\x02\0\0", 1, 4, cut),
        (b"\x02\0\0\0", 1, 4, new),
        (b"\x01\0\0\0", 1, 4, Ok(())),
        (b"\x01\0\0\0", 0, 4, new),
        (b"\xFF\xFF\xFF\xFF", 254, 4, new),
        (b"\xFF\xFF\xFF\xFF", 255, 4, Ok(())),
        // the version before the end of the fields
        (b"\x02\0\0\0\0\0\0", 1, 8, new),
        (b"\x01\0\0\0\0\0\0", 1, 8, cut),
        (b"\x01\0\0\0\0\0\0\0", 1, 8, Ok(())),
        (b"\x01\0\0\0\0\0\0\0\0", 1, 8, Ok(())),
    ];
    for (body, newest, end, wanted) in rows {
        let len = body.len();
        assert_eq!(rt;
            check_full_box(body, newest, end, PLACE),
            wanted,
            "{len} bytes, version {newest}, end {end}"
        );
    }
}

#[test]
fn tables(rt: HostRuntime) {
    let cut = Err(Bad::at(Code::TableLength, PLACE));
    let new = Err(Bad::at(Code::BoxVersion, PLACE));
    // the newest version, and the length of a row
    let rows: [(&[u8], u32, u16, Result<u32, Bad>); 13] = [
        // too short for a version, for a number of rows, and for the rows
        (b"\x02\0\0", 1, 4, cut),
        (b"\x02\0\0\0", 1, 4, new),
        (b"\x01\0\0\0\0\0\0", 1, 4, cut),
        (b"\x02\0\0\0\0\0\0\x01", 1, 4, new),
        (b"\x01\0\0\0\0\0\0\x01abc", 1, 4, cut),
        (b"\x01\0\0\0\0\0\0\x01abcd", 1, 4, Ok(1)),
        (b"\x01\0\0\0\0\0\0\x01abcde", 1, 4, Ok(1)),
        (b"\0\0\0\0\0\0\0\x03abcdefgh", 0, 3, cut),
        (b"\0\0\0\0\0\0\0\x03abcdefghi", 0, 3, Ok(3)),
        // no rows, and as many as there can be
        (b"\0\0\0\0\0\0\0\0", 0, 65535, Ok(0)),
        (b"\0\0\0\0\xFF\xFF\xFF\xFF", 0, 1, cut),
        (b"\0\0\0\0\xFF\xFF\xFF\xFF", 0, 65535, cut),
        (b"\0\0\0\0\xFF\xFF\xFF\xFF", 0, 0, Ok(u32::MAX)),
    ];
    for (body, newest, width, wanted) in rows {
        let len = body.len();
        assert_eq!(rt;
            row_count(body, newest, usize::from(width), PLACE),
            wanted,
            "{len} bytes, version {newest}, rows of {width}"
        );
    }
    // the first row of a table that is whole
    let body = b"\0\0\0\0\0\0\0\x01abcd";
    assert_eq!(rt; &body[FIRST_ROW..], b"abcd".as_slice());
}
