//! Slice headers of streams that real encoders made, and of sets and headers drawn at random. What they
//! give was read off them by a script that follows ITU-T H.264, 7.3.3.
use super::*;
use avc_sets::{read_pps, read_sps};
use mp_ports::Code;

/// What the header of a unit gives by the sets in these units.
fn read(sps: &[u8], pps: &[u8], unit: &[u8]) -> Result<Slice, Code> {
    if unit.is_empty() {
        return Err(Code::NoPicture);
    }
    let sps = read_sps(sps)?;
    let pps = read_pps(pps)?;
    read_slice(unit, Some(&sps), &[pps])
}

/// The fields of a slice: whether it is IDR, `nal_ref_idc`, frame number, IDR number, both parts of the order.
fn slice(idr: bool, ref_idc: u8, frame_num: u32, idr_id: u32, lsb: u32, bottom: i32) -> Slice {
    Slice {
        idr,
        ref_idc,
        pps: 0,
        frame_num,
        idr_id,
        lsb,
        bottom,
    }
}

/// The sets of a film, of an interlaced one and of a picture of one macroblock.
const FILM: (&[u8], &[u8]) = (
    b"\x67\x64\0\x0B\xAC\xD9\x42\x8D\xF9\x30\x11\0\0\0\x01\0\0\0\x32\x0F\x14\x29\x96",
    b"\x68\xEA\xE0\xA4\xB2\x2C",
);

const INTERLACED: (&[u8], &[u8]) = (
    b"\x67\x64\0\x15\xAC\xD9\x43\x08\xFC\xD8\x08\x80\0\x01\xF4\x80\0\x75\x30\x0F\x8A\x14\xCB",
    b"\x68\xFA\xA0\xA4\xB2\x2C",
);

const SMALL: (&[u8], &[u8]) = (b"\x67\x42\0\x0A\xDA\x79", b"\x68\xCE\x38\x80");

#[test]
fn headers_are_read_to_their_last_element(rt: HostRuntime) {
    // the last byte of each holds its last element
    let rows: [((&[u8], &[u8]), &[u8], Slice); 13] = [
        (FILM, b"\x65\x88\x84\x01", slice(true, 3, 0, 0, 0, 0)),
        (FILM, b"\x41\x9A\x24\x6C\x49", slice(false, 2, 1, 0, 8, 0)),
        (FILM, b"\x41\x9E\x42\x78", slice(false, 2, 2, 0, 4, 0)),
        (FILM, b"\x01\x9E\x61\x74\x42", slice(false, 0, 3, 0, 2, 0)),
        (
            INTERLACED,
            b"\x65\x88\x82\x0B\x09",
            slice(true, 3, 0, 0, 1, -1),
        ),
        (
            INTERLACED,
            b"\x41\x9A\x21\xDE\x49",
            slice(false, 2, 1, 0, 7, -1),
        ),
        (
            INTERLACED,
            b"\x41\x9A\x63\x5B\x4A\x45",
            slice(false, 2, 3, 0, 13, -1),
        ),
        (SMALL, b"\x65\x88\x84", slice(true, 3, 0, 0, 0, 0)),
        // a B slice with weights, and one with two modified lists
        (
            (b"\x67\x58\x67\x66\x56\x8B\xFD", b"\x68\xA6\x46\x67\x22"),
            b"\x41\x22\xF7\xD8\x13\x89\xAF\xD2\x21\xDC\xE1\x24\xE1\x24\x94\xAF",
            slice(false, 2, 14, 0, 0, 0),
        ),
        (
            (b"\x67\x6E\x55\xC9\xA2\xE1\xAE\xAC", b"\x68\xD9\x16\x9C\x8F"),
            b"\x41\x22\xF6\x43\xF2\x3B\x02\x71\x2D\x40\x9C\x49\x43\xE4\xA6\xFF",
            slice(false, 2, 60551, 0, 0, 0),
        ),
        // an SP slice with weights and no chroma
        (
            (
                b"\x67\x64\x13\x4D\xCF\x05\xC5\x84\x5E\x7F",
                b"\x68\xCF\xE7\x22",
            ),
            b"\x21\x92\xA8\xC8\x14\x2B\xC0\x9C\x43\xCE\x12\x91\xA3\xB2\x87\xFF",
            slice(false, 1, 5401, 0, 161, 0),
        ),
        // an IDR slice with a number, and a slice with marking operations and the greatest difference
        (
            (b"\x67\x42\xAD\xCA\x9E\x42\xBC", b"\x68\xCE\x67\x22"),
            b"\x45\x03\x21\xF9\x0A\x6F\xA4\xE4\x65\x15\x01\xFE\x20\x9C\x24\xBF",
            slice(true, 2, 801, 1, 55, 0),
        ),
        (
            (b"\x67\x42\x8F\x5E\x9F\x29\x59", b"\x68\xD9\x18\x9C\x8B"),
            b"\x21\x9A\x4A\x9C\0\0\0\x07\xFF\xFF\xFF\xF4\x10\x27\x64\x69\xBF",
            slice(false, 1, 149, 0, 7, 2_147_483_647),
        ),
    ];
    for ((sps, pps), unit, wanted) in rows {
        assert!(&rt; read(sps, pps, unit) == Ok(wanted));
        if unit.len() > 1 {
            let cut = &unit[..unit.len() - 1];
            assert!(&rt; read(sps, pps, cut) == Err(Code::SliceSyntax));
        }
    }
}

#[test]
fn headers_that_are_refused(rt: HostRuntime) {
    let rows: [((&[u8], &[u8]), &[u8], Code); 7] = [
        // an IDR picture that is no reference
        (SMALL, b"\x05\x88\x84\x80", Code::SliceSyntax),
        (SMALL, b"\x65", Code::SliceSyntax),
        // no picture parameter set of its number
        (
            (b"\x67\x42\x24\x75\x49\xDE\x7F", b"\x68\x88\x76\xA7\x22"),
            b"\x41\xBB\xBF",
            Code::SetMissing,
        ),
        (
            (b"\x67\x4D\x8A\x8B\xBC\xAA\x67", b"\x68\xCE\x27\x22"),
            b"\x41\xBA\x39\x7F",
            Code::FieldPicture,
        ),
        (
            (b"\x67\x4D\x41\xE2\x4E\xA4\xB3", b"\x68\xA2\x46\x27\x23"),
            b"\x21\x8A\xB0\xF4",
            Code::Redundant,
        ),
        (
            (b"\x67\x58\xCE\xDB\x4D\x95\xF7\xA7", b"\x68\xA2\x9B\x9C\x8B"),
            b"\x41\x20\x8E\x13\x7F",
            Code::Marking5,
        ),
        // an IDR number of 65536
        (
            (
                b"\x67\x4D\x2F\x69\x4D\xA7\xDA\xB7",
                b"\x68\xA6\x08\x15\x9C\x8B",
            ),
            b"\x65\x88\x9C\0\x01\0\x01\xBF",
            Code::SliceSyntax,
        ),
    ];
    for ((sps, pps), unit, wanted) in rows {
        assert!(&rt; read(sps, pps, unit) == Err(wanted));
    }
    // no sets at all
    assert!(&rt; read_slice(b"\x65\x88\x84\x80", None, &[]) == Err(Code::SetMissing));
}

/// Sets laid out by hand: the number of the picture set and that of the sequence set which it names aren't the same.
#[test]
fn sets_are_found_by_their_own_numbers(rt: HostRuntime) {
    const FIRST: &[u8] = b"\x67\x42\0\x0A\xDA\x79";
    const SECOND: &[u8] = b"\x67\x42\0\x0A\x56\x9E\x40";
    let of_0 = b"\x65\x88\x84\x80";
    let of_2 = b"\x65\x88\x61\x20";
    let intra = slice(true, 3, 0, 0, 0, 0);
    // picture set 0 of sequence set 1, and picture set 2 of sequence sets 0 and 1
    assert!(&rt; read(SECOND, b"\x68\xA3\x8E\x20", of_0) == Ok(intra));
    assert!(&rt; read(FIRST, b"\x68\x73\x8E\x20", of_2) == Ok(Slice { pps: 2, ..intra }));
    assert!(&rt; read(SECOND, b"\x68\x68\xE3\x88", of_2) == Ok(Slice { pps: 2, ..intra }));
    // the sequence set that is named, and the picture set of the slice, aren't there
    assert!(&rt; read(FIRST, b"\x68\xA3\x8E\x20", of_0) == Err(Code::SetMissing));
    assert!(&rt; read(SECOND, b"\x68\x73\x8E\x20", of_2) == Err(Code::SetMissing));
    assert!(&rt; read(SECOND, b"\x68\x68\xE3\x88", of_0) == Err(Code::SetMissing));
}
