//! Sample entries byte by byte, by ISO/IEC 14496-12, 8.5.2 and 12.1.3, 14496-14, 5.6, 14496-15, 5.4.2 and
//! 14496-1, 7.2.6 and 8.3.3.

ghost use Rattle.std.specs.Prelude.{◌<◌, ◌^◌, length};

use crate::{
    EsdsEntry, avc1_entry, dref_len, esds_entry, push_dref, push_stsd, read_dref, read_entry,
    read_stsd, stsd_len,
};
use mp_boxes::{next_box, reserve};
use mp_ports::{Bad, Code, Fail, NoMemory};
use mp_timeline::EntryBytes;
use std::alloc::Global;
use std::test::Fail as TestFail;

/// Where the entry of each case stands.
const BASE: u64 = 700;

/// The entry that is kept of a whole box. No case is anything else.
fn kept(alloc: Global, bytes: &[u8], local: &[bool]) -> Result<Vec<u8>, Fail> {
    if bytes.len() > 1000 {
        return Err(Fail::NoMemory);
    }
    match next_box(bytes, 0, BASE) {
        Ok(Some(head)) if head.len == bytes.len() => read_entry(alloc, bytes, BASE, local),
        _ => Err(Fail::NoMemory),
    }
}

#[test]
fn an_entry_is_kept_with_the_first_reference(rt: HostRuntime) {
    let rows: [(&str, &[u8], &[u8]); 4] = [
        (
            "the second of two",
            b"\0\0\0\x12mp4a\x01\x02\x03\x04\x05\x06\0\x02\xAA\xBB",
            b"\0\0\0\x12mp4a\x01\x02\x03\x04\x05\x06\0\x01\xAA\xBB",
        ),
        (
            "the first",
            b"\0\0\0\x10avc1\0\0\0\0\0\0\0\x01",
            b"\0\0\0\x10avc1\0\0\0\0\0\0\0\x01",
        ),
        (
            "a size of 64 bits",
            b"\0\0\0\x01mp4v\0\0\0\0\0\0\0\x18\0\0\0\0\0\0\0\x02",
            b"\0\0\0\x01mp4v\0\0\0\0\0\0\0\x18\0\0\0\0\0\0\0\x01",
        ),
        (
            "the type `uuid`",
            b"\0\0\0\x20uuid0123456789abcdef\0\0\0\0\0\0\0\x02",
            b"\0\0\0\x20uuid0123456789abcdef\0\0\0\0\0\0\0\x01",
        ),
    ];
    for (what, bytes, wanted) in rows {
        let answer = kept(rt.alloc(), bytes, &[true, true]);
        assert!(rt;
            matches!(&answer, Ok(entry) if entry.as_slice() == wanted),
            "{what}"
        );
    }
}

#[test]
fn each_fault_has_its_place_in_the_order(rt: HostRuntime) {
    let rows: [(&str, &[u8], &[bool], Code); 9] = [
        (
            "seven bytes",
            b"\0\0\0\x0Fencv\0\0\0\0\0\0\0",
            &[],
            Code::TableLength,
        ),
        ("no bytes", b"\0\0\0\x08mp4a", &[true], Code::TableLength),
        (
            "encv",
            b"\0\0\0\x10encv\0\0\0\0\0\0\0\0",
            &[],
            Code::Encrypted,
        ),
        (
            "enca",
            b"\0\0\0\x10enca\0\0\0\0\0\0\0\x01",
            &[true],
            Code::Encrypted,
        ),
        (
            "enct",
            b"\0\0\0\x10enct\0\0\0\0\0\0\0\x01",
            &[true],
            Code::Encrypted,
        ),
        (
            "encs",
            b"\0\0\0\x10encs\0\0\0\0\0\0\0\x01",
            &[true],
            Code::Encrypted,
        ),
        (
            "index 0",
            b"\0\0\0\x10mp4a\0\0\0\0\0\0\0\0",
            &[true],
            Code::EntryIndex,
        ),
        (
            "index 3 of 2",
            b"\0\0\0\x10mp4a\0\0\0\0\0\0\0\x03",
            &[false, false],
            Code::EntryIndex,
        ),
        (
            "in another file",
            b"\0\0\0\x10mp4a\0\0\0\0\0\0\0\x02",
            &[true, false],
            Code::External,
        ),
    ];
    for (what, bytes, local, code) in rows {
        let answer = kept(rt.alloc(), bytes, local);
        let refusal = Fail::Bad(Bad::at(code, BASE));
        assert!(rt; matches!(&answer, Err(fail) if *fail == refusal), "{what}");
    }
}

/// The entry of AAC sound of so many samples a second, with these bytes of configuration.
fn sound(alloc: Global, rate: u32, info: &[u8]) -> Result<Vec<u8>, NoMemory> {
    if info.len() > 65536 {
        return Err(NoMemory);
    }
    let entry = EsdsEntry {
        audio: true,
        object: 0x40,
        channels: 2,
        rate,
        buffer: 0,
        maximal: 0,
        average: 0,
        info: Vec::from_slice(alloc, info)?,
    };
    esds_entry(alloc, &entry)
}

#[test]
fn sound_is_written_byte_by_byte(rt: HostRuntime) -> Result<(), TestFail> {
    // AAC LC at 44,100 samples a second, stereo: its configuration is 12 10
    let entry = sound(rt.alloc(), 44100, &[0x12, 0x10]).expect(&rt, "memory");
    let wanted =
        b"\0\0\0\x4Bmp4a\0\0\0\0\0\0\0\x01\0\0\0\0\0\0\0\0\0\x02\0\x10\0\0\0\0\xAC\x44\0\0\0\0\
            \0\x27esds\0\0\0\0\x03\x19\0\0\0\x04\x11\x40\x15\0\0\0\0\0\0\0\0\0\0\0\x05\x02\x12\
            \x10\x06\x01\x02";
    assert_eq!(rt; entry.as_slice(), wanted.as_slice());
    let rows: [(u32, [u8; 4]); 3] = [
        (65535, [0xFF, 0xFF, 0, 0]),
        (65536, [0, 0, 0, 0]),
        (96000, [0, 0, 0, 0]),
    ];
    for (rate, wanted) in rows {
        let entry = sound(rt.alloc(), rate, &[]).expect(&rt, "memory");
        assert_eq!(rt; entry.get(32..36), Some(wanted.as_slice()));
    }
    Ok(())
}

#[test]
fn pictures_are_written_byte_by_byte(rt: HostRuntime) -> Result<(), TestFail> {
    let entry = EsdsEntry {
        audio: false,
        object: 0x20,
        channels: 2,
        rate: 25,
        buffer: 0x0012_3456,
        maximal: 0x0102_0304,
        average: 0x0506_0708,
        info: Vec::new(rt.alloc()),
    };
    let entry = esds_entry(rt.alloc(), &entry).expect(&rt, "memory");
    // no configuration, and so no descriptor of it
    let wanted =
        b"\0\0\0\x79mp4v\0\0\0\0\0\0\0\x01\0\0\0\0\0\0\0\0\0\0\0\0\0\0\0\0\0\0\0\0\0\x48\0\0\0\
            \x48\0\0\0\0\0\0\0\x01\0\0\0\0\0\0\0\0\0\0\0\0\0\0\0\0\0\0\0\0\0\0\0\0\0\0\0\0\0\0\
            \0\0\0\x18\xFF\xFF\0\0\0\x23esds\0\0\0\0\x03\x15\0\0\0\x04\x0D\x20\x11\x12\x34\x56\
            \x01\x02\x03\x04\x05\x06\x07\x08\x06\x01\x02";
    assert_eq!(rt; entry.as_slice(), wanted.as_slice());
    Ok(())
}

/// The entry of H.264 pictures. No case has more bytes of configuration.
fn h264(alloc: Global, avcc: &[u8], width: u16, height: u16) -> Result<Vec<u8>, NoMemory> {
    if avcc.len() > 1000 {
        return Err(NoMemory);
    }
    avc1_entry(alloc, avcc, width, height)
}

#[test]
fn h264_pictures_are_written_byte_by_byte(rt: HostRuntime) -> Result<(), TestFail> {
    // the configuration that x264 made for pictures of 192 by 108, profile High, level 1.1
    let configuration =
        b"\x01\x64\0\x0B\xFF\xE1\0\x17\x67\x64\0\x0B\xAC\xD9\x43\x0F\xFB\xC0\x44\0\0\x0F\
            \xA4\0\x03\xA9\x80\x3C\x50\xA6\x58\x01\0\x06\x68\xEA\xE0\xA4\xB2\x2C\xFD\xF8\xF8\0";
    let entry = h264(rt.alloc(), configuration, 192, 108).expect(&rt, "memory");
    // type, reserved, data reference, reserved; width, height, 72 dots an inch twice, reserved, one frame;
    // no name of a compressor; depth, -1; the box of the configuration
    let wanted = b"\0\0\0\x8Aavc1\0\0\0\0\0\0\0\x01\0\0\0\0\0\0\0\0\0\0\0\0\0\0\0\0\
            \0\xC0\0\x6C\0\x48\0\0\0\x48\0\0\0\0\0\0\0\x01\
            \0\0\0\0\0\0\0\0\0\0\0\0\0\0\0\0\0\0\0\0\0\0\0\0\0\0\0\0\0\0\0\0\
            \0\x18\xFF\xFF\0\0\0\x34avcC\
            \x01\x64\0\x0B\xFF\xE1\0\x17\x67\x64\0\x0B\xAC\xD9\x43\x0F\xFB\xC0\x44\0\0\x0F\
            \xA4\0\x03\xA9\x80\x3C\x50\xA6\x58\x01\0\x06\x68\xEA\xE0\xA4\xB2\x2C\xFD\xF8\xF8\0";
    assert_eq!(rt; entry.as_slice(), wanted.as_slice());
    // the greatest width, and no configuration
    let entry = h264(rt.alloc(), &[], 65535, 1).expect(&rt, "memory");
    let wanted = b"\0\0\0\x5Eavc1\0\0\0\0\0\0\0\x01\0\0\0\0\0\0\0\0\0\0\0\0\0\0\0\0\
            \xFF\xFF\0\x01\0\x48\0\0\0\x48\0\0\0\0\0\0\0\x01\
            \0\0\0\0\0\0\0\0\0\0\0\0\0\0\0\0\0\0\0\0\0\0\0\0\0\0\0\0\0\0\0\0\
            \0\x18\xFF\xFF\0\0\0\x08avcC";
    assert_eq!(rt; entry.as_slice(), wanted.as_slice());
    Ok(())
}

#[test]
fn lengths_take_the_fewest_bytes(rt: HostRuntime) -> Result<(), TestFail> {
    // bytes of configuration, of the whole entry, and what stands in front of the configuration
    let rows: [(usize, usize, &[u8]); 4] = [
        (
            127,
            202,
            b"\0\0\0\xA6esds\0\0\0\0\x03\x81\x17\0\0\0\x04\x81\x0E\x40\x15\0\0\0\0\0\0\0\0\0\0\
                \0\x05\x7F",
        ),
        (
            128,
            204,
            b"\0\0\0\xA8esds\0\0\0\0\x03\x81\x19\0\0\0\x04\x81\x10\x40\x15\0\0\0\0\0\0\0\0\0\0\
                \0\x05\x81\0",
        ),
        (
            16383,
            16461,
            b"\0\0\x40\x29esds\0\0\0\0\x03\x81\x80\x19\0\0\0\x04\x81\x80\x0F\x40\x15\0\0\0\0\0\
                \0\0\0\0\0\0\x05\xFF\x7F",
        ),
        (
            16384,
            16463,
            b"\0\0\x40\x2Besds\0\0\0\0\x03\x81\x80\x1B\0\0\0\x04\x81\x80\x11\x40\x15\0\0\0\0\0\
                \0\0\0\0\0\0\x05\x81\x80\0",
        ),
    ];
    for (len, whole, front) in rows {
        let info = vec![in rt.alloc(); 0x55u8; len]?;
        let entry = sound(rt.alloc(), 44100, &info).expect(&rt, "memory");
        assert_eq!(rt; entry.len(), whole);
        assert_eq!(rt; entry.get(36..36 + front.len()), Some(front));
        assert!(rt; entry.as_slice().ends_with(b"\x55\x06\x01\x02"));
    }
    Ok(())
}

/// Where the body of a box at `BASE` stands.
const BODY: u64 = BASE + 8;

/// The entries of the body of a box `stsd`, one after another.
fn entries(alloc: Global, body: &[u8], local: &[bool]) -> Result<Vec<u8>, Fail>
    requires { length body.now < 2 ^ 32 }
{
    let mut joined = Vec::new(alloc);
    for entry in &read_stsd(alloc, body, BODY, BASE, local)? {
        joined.extend_from_slice(&entry.bytes)?;
    }
    Ok(joined)
}

#[test]
fn descriptions_of_entries(rt: HostRuntime) {
    let rows: [(&str, &[u8], &[u8]); 3] = [
        ("none", b"\0\0\0\0\0\0\0\0", b""),
        (
            "one, of the second reference",
            b"\0\0\0\0\0\0\0\x01\0\0\0\x11avc1\0\0\0\0\0\0\0\x02A",
            b"\0\0\0\x11avc1\0\0\0\0\0\0\0\x01A",
        ),
        (
            "two, in order",
            b"\0\0\0\0\0\0\0\x02\0\0\0\x10mp4a\0\0\0\0\0\0\0\x02\0\0\0\x11avc1\0\0\0\0\0\0\0\x01A",
            b"\0\0\0\x10mp4a\0\0\0\0\0\0\0\x01\0\0\0\x11avc1\0\0\0\0\0\0\0\x01A",
        ),
    ];
    for (what, body, wanted) in rows {
        assert!(rt; body.len() < 1000);
        let answer = entries(rt.alloc(), body, &[true, true]);
        assert!(rt;
            matches!(&answer, Ok(joined) if joined.as_slice() == wanted),
            "{what}"
        );
    }
}

#[test]
fn faults_of_descriptions_in_order(rt: HostRuntime) {
    let rows: [(&str, &[u8], Code, u64); 12] = [
        ("three bytes", b"\x01\0\0", Code::TableLength, 700),
        ("version 1", b"\x01\0\0\0", Code::BoxVersion, 700),
        ("no number", b"\0\0\0\0\0\0\0", Code::TableLength, 700),
        // too many are told before a box that is cut
        (
            "256",
            b"\0\0\0\0\0\0\x01\0\0\0\0\x09mp4a",
            Code::EntryLimit,
            0,
        ),
        (
            "a box that is cut, and not so many",
            b"\0\0\0\0\0\0\0\x02\0\0\0\x09mp4a",
            Code::BoxCut,
            716,
        ),
        (
            "size 7",
            b"\0\0\0\0\0\0\0\x01\0\0\0\x07mp4a",
            Code::BoxSize,
            716,
        ),
        (
            "255 and none",
            b"\0\0\0\0\0\0\0\xFF",
            Code::TableLength,
            700,
        ),
        (
            "none and one",
            b"\0\0\0\0\0\0\0\0\0\0\0\x10mp4a\0\0\0\0\0\0\0\x01",
            Code::TableLength,
            700,
        ),
        // too short before what is wrong with the first
        (
            "a second of seven bytes",
            b"\0\0\0\0\0\0\0\x02\0\0\0\x10enca\0\0\0\0\0\0\0\x01\0\0\0\x0Fmp4a\0\0\0\0\0\0\0",
            Code::TableLength,
            700,
        ),
        // then entry by entry
        (
            "a protected second",
            b"\0\0\0\0\0\0\0\x02\0\0\0\x10mp4a\0\0\0\0\0\0\0\x01\0\0\0\x10enca\0\0\0\0\0\0\0\x01",
            Code::Encrypted,
            732,
        ),
        (
            "a third reference",
            b"\0\0\0\0\0\0\0\x02\0\0\0\x10mp4a\0\0\0\0\0\0\0\x03\0\0\0\x10enca\0\0\0\0\0\0\0\x01",
            Code::EntryIndex,
            716,
        ),
        (
            "a reference to another file",
            b"\0\0\0\0\0\0\0\x01\0\0\0\x10mp4a\0\0\0\0\0\0\0\x02",
            Code::External,
            716,
        ),
    ];
    for (what, body, code, place) in rows {
        assert!(rt; body.len() < 1000);
        let answer = entries(rt.alloc(), body, &[true, false]);
        let wanted = Bad::at(code, place);
        assert!(rt;
            matches!(&answer, Err(Fail::Bad(bad)) if *bad == wanted),
            "{what}"
        );
    }
}

#[test]
fn data_references(rt: HostRuntime) {
    let rows: [(&str, &[u8], &[bool]); 3] = [
        ("none", b"\0\0\0\0\0\0\0\0", &[]),
        (
            "in this file, and elsewhere",
            b"\0\0\0\0\0\0\0\x02\0\0\0\x0Curl \0\0\0\x01\0\0\0\x0Durl \0\0\0\0a",
            &[true, false],
        ),
        (
            "other flags, and a version",
            b"\0\0\0\0\0\0\0\x02\0\0\0\x0Curl \0\0\0\x02\0\0\0\x0Curn \x01\0\0\x03",
            &[false, true],
        ),
    ];
    for (what, body, wanted) in rows {
        assert!(rt; body.len() < 1000);
        let answer = read_dref(rt.alloc(), body, BODY, BASE);
        assert!(rt;
            matches!(&answer, Ok(local) if local.as_slice() == wanted),
            "{what}"
        );
    }
    let faults: [(&str, &[u8], Code, u64); 5] = [
        ("three bytes", b"\x01\0\0", Code::TableLength, 700),
        ("version 1", b"\x01\0\0\0\0\0\0\0", Code::BoxVersion, 700),
        (
            "a box that is cut",
            b"\0\0\0\0\0\0\0\x02\0\0\0\x0Curl \0\0\0\x01\0\0\0\x0Curl ",
            Code::BoxCut,
            728,
        ),
        (
            "one and two",
            b"\0\0\0\0\0\0\0\x01\0\0\0\x0Curl \0\0\0\x01\0\0\0\x0Curl \0\0\0\x01",
            Code::TableLength,
            700,
        ),
        (
            "three bytes of a reference",
            b"\0\0\0\0\0\0\0\x01\0\0\0\x0Burl \0\0\0",
            Code::TableLength,
            700,
        ),
    ];
    for (what, body, code, place) in faults {
        assert!(rt; body.len() < 1000);
        let answer = read_dref(rt.alloc(), body, BODY, BASE);
        let wanted = Bad::at(code, place);
        assert!(rt;
            matches!(&answer, Err(Fail::Bad(bad)) if *bad == wanted),
            "{what}"
        );
    }
}

/// An entry of these bytes.
fn entry(alloc: Global, bytes: &[u8]) -> Result<EntryBytes, NoMemory> {
    let bytes = Vec::from_slice(alloc, bytes)?;
    Ok(EntryBytes { bytes })
}

#[test]
fn references_and_descriptions_are_written_byte_by_byte(rt: HostRuntime) -> Result<(), TestFail> {
    let mut out = Vec::new(rt.alloc());
    reserve(&mut out, 28)?;
    push_dref(&mut out);
    assert_eq!(rt; dref_len(), 28);
    assert_eq!(rt;
        out.as_slice(),
        b"\0\0\0\x1Cdref\0\0\0\0\0\0\0\x01\0\0\0\x0Curl \0\0\0\x01".as_slice()
    );
    let mut entries = Vec::new(rt.alloc());
    entries.push(entry(rt.alloc(), b"\0\0\0\x10mp4a\0\0\0\0\0\0\0\x01")?)?;
    entries.push(entry(rt.alloc(), b"\0\0\0\x11avc1\0\0\0\0\0\0\0\x01A")?)?;
    assert!(rt; entries.len() == 2);
    let mut out = Vec::new(rt.alloc());
    reserve(&mut out, 49)?;
    push_stsd(&mut out, &entries);
    assert_eq!(rt; stsd_len(&entries), 49);
    assert_eq!(rt;
        out.as_slice(),
        b"\0\0\0\x31stsd\0\0\0\0\0\0\0\x02\0\0\0\x10mp4a\0\0\0\0\0\0\0\x01\0\0\0\x11avc1\0\0\0\
            \0\0\0\0\x01A"
            .as_slice()
    );
    Ok(())
}
