//! Boxes that are pushed, byte by byte as ISO/IEC 14496-12, 4.2, 8.7 and 8.6.1.3 lay them out.

use crate::{
    Field, begin_box, begin_table, box_len, fields_len, push_box, push_bytes, push_fields,
    push_head, reserve, sum_len, table_len,
};
use std::test;

#[test]
fn boxes_in_boxes(rt: HostRuntime) -> Result<(), test::Fail> {
    let url = [Field::version_and_flags(false, 1)];
    let references = [Field::version_and_flags(false, 0), Field::U32(1)];
    let url_len = box_len(&url, 0);
    let references_len = box_len(&references, sum_len(&[url_len]));
    let all_len = box_len(&[], sum_len(&[references_len]));
    assert_eq!(rt; [url_len, references_len, all_len], [12, 28, 36]);
    let mut out = Vec::from_slice(rt.alloc(), b"ab")?;
    reserve(&mut out, 36)?;
    begin_box(&mut out, *b"dinf", &[], all_len);
    begin_box(&mut out, *b"dref", &references, references_len);
    push_box(&mut out, *b"url ", &url);
    assert_eq!(rt;
        out.as_slice(),
        b"ab\0\0\0\x24dinf\0\0\0\x1Cdref\0\0\0\0\0\0\0\x01\0\0\0\x0Curl \0\0\0\x01".as_slice()
    );
    Ok(())
}

#[test]
fn rows(rt: HostRuntime) -> Result<(), test::Fail> {
    let mut offsets = Vec::new(rt.alloc());
    reserve(&mut offsets, 24)?;
    begin_table(&mut offsets, *b"ctts", true, 1, 8);
    push_fields(&mut offsets, &[Field::U32(3), Field::U32(4_294_967_295)]);
    assert_eq!(rt;
        offsets.as_slice(),
        b"\0\0\0\x18ctts\x01\0\0\0\0\0\0\x01\0\0\0\x03\xFF\xFF\xFF\xFF".as_slice()
    );
    let mut places = Vec::new(rt.alloc());
    reserve(&mut places, 24)?;
    begin_table(&mut places, *b"co64", false, 1, 8);
    push_fields(&mut places, &[Field::U64(4_294_967_296)]);
    assert_eq!(rt;
        places.as_slice(),
        b"\0\0\0\x18co64\0\0\0\0\0\0\0\x01\0\0\0\x01\0\0\0\0".as_slice()
    );
    Ok(())
}

#[test]
fn rows_behind_more_than_a_count(rt: HostRuntime) -> Result<(), test::Fail> {
    let mut sizes = Vec::new(rt.alloc());
    reserve(&mut sizes, 28)?;
    let head = [
        Field::version_and_flags(false, 0),
        Field::U32(0),
        Field::U32(2),
    ];
    begin_box(&mut sizes, *b"stsz", &head, 28);
    push_fields(&mut sizes, &[Field::U32(258)]);
    push_bytes(&mut sizes, b"\0\0\0\x07");
    assert_eq!(rt;
        sizes.as_slice(),
        b"\0\0\0\x1Cstsz\0\0\0\0\0\0\0\0\0\0\0\x02\0\0\x01\x02\0\0\0\x07".as_slice()
    );
    Ok(())
}

#[test]
fn headers(rt: HostRuntime) -> Result<(), test::Fail> {
    let mut out = Vec::new(rt.alloc());
    reserve(&mut out, 24)?;
    push_head(&mut out, *b"mdat", 4_294_967_295);
    push_head(&mut out, *b"mdat", 4_294_967_296);
    assert_eq!(rt;
        out.as_slice(),
        b"\xFF\xFF\xFF\xFFmdat\0\0\0\x01mdat\0\0\0\x01\0\0\0\0".as_slice()
    );
    Ok(())
}

#[test]
fn lengths(rt: HostRuntime) {
    let fields = [
        Field::U16(1),
        Field::U32(2),
        Field::U64(3),
        Field::Bytes(b"abc"),
    ];
    assert_eq!(rt; fields_len(&fields), 17);
    assert_eq!(rt; box_len(&fields, 5), 30);
    assert_eq!(rt; sum_len(&[]), 0);
    assert_eq!(rt; sum_len(&[u64::MAX, 3]), u64::MAX);
    assert_eq!(rt; table_len(1, 8), 24);
    assert_eq!(rt; table_len(u32::MAX, u32::MAX), 18_446_744_065_119_617_041);
}

#[test]
fn fields_of_each_width(rt: HostRuntime) -> Result<(), test::Fail> {
    let mut out = Vec::from_slice(rt.alloc(), b"ab")?;
    reserve(&mut out, 32)?;
    push_fields(&mut out, &[]);
    let fields = [
        Field::version_and_flags(true, 0x0A_0B0C),
        Field::U16(0x0102),
        Field::U32(0x0304_0506),
        Field::U64(0x4142_4344_4546_4748),
        Field::time(false, 15),
        Field::time(true, 16),
        Field::Bytes(b"cd"),
    ];
    push_fields(&mut out, &fields);
    assert_eq!(rt;
        out.as_slice(),
        b"ab\x01\x0A\x0B\x0C\x01\x02\x03\x04\x05\x06ABCDEFGH\0\0\0\x0F\0\0\0\0\0\0\0\x10cd".as_slice()
    );
    Ok(())
}
