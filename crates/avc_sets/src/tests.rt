//! Parameter sets of streams that real encoders made, and laid out by hand. What they give was read
//! off them by a script that follows ITU-T H.264, 7.3.2.1.1, 7.3.2.2 and E.1.1; sizes, profiles and
//! levels are those that `ffprobe` tells.
use super::*;
use mp_ports::Code;
use std::test;
use std::test::Fail;

/// What a sequence parameter set says: profile, level, chroma format, luma depth, the bits of frame numbers and of
/// order counts, whether pictures are frames alone, width, height, timing.
type Said = (u8, u8, u8, u8, u8, u8, bool, u16, u16, Option<(u32, u32)>);

fn said(clean: &[u8]) -> Result<Said, Code> {
    let sps = read_sps(clean)?;
    Ok((
        sps.profile,
        sps.level,
        sps.chroma,
        sps.luma_depth,
        sps.frame_bits,
        sps.poc_bits,
        sps.frames_only,
        sps.width,
        sps.height,
        sps.tick,
    ))
}

/// The high profile at 25 pictures a second, as an encoder wrote it.
const FILM: [u8; 23] = [
    103, 100, 0, 11, 172, 217, 66, 141, 249, 48, 17, 0, 0, 0, 1, 0, 0, 0, 50, 15, 20, 41, 150,
];

#[test]
fn sequence_sets_of_real_streams(rt: HostRuntime) {
    let rows: [(&[u8], Said); 6] = [
        // baseline
        (
            &[
                103, 66, 192, 11, 219, 10, 55, 228, 192, 68, 0, 0, 0, 4, 0, 0, 0, 200, 60, 80, 171,
                128,
            ],
            (66, 11, 1, 8, 4, 0, true, 160, 90, Some((1, 50))),
        ),
        // film at 25
        (
            FILM.as_slice(),
            (100, 11, 1, 8, 4, 6, true, 160, 90, Some((1, 50))),
        ),
        // film at 30000/1001
        (
            &[
                103, 100, 0, 11, 172, 217, 67, 15, 251, 192, 68, 0, 0, 15, 164, 0, 3, 169, 128, 60,
                80, 166, 88,
            ],
            (100, 11, 1, 8, 4, 6, true, 192, 108, Some((1001, 60000))),
        ),
        // 4:2:2 of 10 bits
        (
            &[
                103, 122, 0, 11, 182, 205, 148, 40, 223, 159, 1, 16, 0, 0, 0, 16, 0, 0, 3, 32, 241,
                66, 153, 96,
            ],
            (122, 11, 2, 10, 4, 6, true, 160, 90, Some((1, 50))),
        ),
        // interlaced
        (
            &[
                103, 100, 0, 21, 172, 217, 67, 8, 252, 216, 8, 128, 0, 1, 244, 128, 0, 117, 48, 15,
                138, 20, 203,
            ],
            (100, 21, 1, 8, 4, 6, false, 192, 108, Some((1001, 60000))),
        ),
        // one macroblock
        (
            &[103, 66, 0, 10, 218, 121],
            (66, 10, 1, 8, 4, 0, true, 16, 16, None),
        ),
    ];
    for (clean, wanted) in rows {
        assert!(&rt; said(clean) == Ok(wanted));
    }
}

#[test]
fn sequence_sets_that_are_refused(rt: HostRuntime) {
    let rows: [(&[u8], Code); 8] = [
        // no bytes, and no element
        (&[], Code::SetSyntax),
        (&[0x67], Code::SetSyntax),
        // profile 118, and nothing behind it
        (&[0x67, 118], Code::SetProfile),
        // number 32
        (&[0x67, 66, 0, 10, 0b00000100, 0b00100000], Code::SetSyntax),
        // profile 100, number 0: chroma format 3
        (&[0x67, 100, 0, 10, 0b10010000], Code::Chroma),
        // number 0, frame bits 4, count type 1
        (&[0x67, 66, 0, 10, 0b11010000], Code::PocType),
        // the same, cut inside of its code
        (&[0x67, 66, 0, 10, 0b11111111, 0b11111111], Code::SetSyntax),
        // count type 3
        (&[0x67, 66, 0, 10, 0b11001000], Code::SetSyntax),
    ];
    for (clean, wanted) in rows {
        assert!(&rt; said(clean) == Err(wanted));
    }
}

/// Cut behind each bit, where ones fill the byte that is cut, or one more: a one for the last flag of
/// the timing is enough.
#[test]
fn sequence_sets_are_read_to_their_last_bit(rt: HostRuntime) -> Result<(), Fail> {
    // from behind the profile on; 145 bits stand behind the first byte
    for bits in 8..152_usize {
        let last = 1 + bits / 8;
        let mut cut = Vec::from_slice(rt.alloc(), &FILM[..last + 1])?;
        cut[last] |= 0xFF >> (bits % 8);
        if bits < 144 {
            assert!(&rt; said(&cut) == Err(Code::SetSyntax));
        } else {
            assert!(&rt; said(&cut) == said(&FILM));
        }
    }
    Ok(())
}

#[test]
fn picture_sets_of_real_streams(rt: HostRuntime) {
    // number, sequence set, bottom order, references, weighted, bipred, redundant
    let rows: [(&[u8], (u8, u8, bool, u8, u8, bool, u8, bool)); 4] = [
        // baseline
        (
            &[0x68, 0xca, 0x80, 0xa4, 0xb2],
            (0, 0, false, 2, 1, false, 0, false),
        ),
        // film at 25
        (
            &[0x68, 0xea, 0xe0, 0xa4, 0xb2, 0x2c],
            (0, 0, false, 2, 1, true, 2, false),
        ),
        // interlaced
        (
            &[0x68, 0xfa, 0xa0, 0xa4, 0xb2, 0x2c],
            (0, 0, true, 2, 1, false, 2, false),
        ),
        // one macroblock
        (
            &[0x68, 0xce, 0x38, 0x80],
            (0, 0, false, 1, 1, false, 0, false),
        ),
    ];
    for (clean, wanted) in rows {
        let got = match read_pps(clean) {
            Ok(p) => Ok((
                p.number,
                p.sps,
                p.bottom_order,
                p.refs0,
                p.refs1,
                p.weighted,
                p.bipred,
                p.redundant,
            )),
            Err(code) => Err(code),
        };
        assert!(&rt; got == Ok(wanted));
    }
    // two slice groups, and a set that ends
    assert!(&rt; read_pps(&[0x68, 0b11000100]).err() == Some(Code::SliceGroups));
    assert!(&rt; read_pps(&[0x68, 0xce]).err() == Some(Code::SetSyntax));
}

#[test]
fn configurations_of_encoders(rt: HostRuntime) -> Result<(), Fail> {
    // the unit as it stands in the stream, and the body of `avcC` that the encoder's own file has
    let unit = [
        0x67, 0x64, 0x00, 0x0b, 0xac, 0xd9, 0x43, 0x0f, 0xfb, 0xc0, 0x44, 0x00, 0x00, 0x0f, 0xa4,
        0x00, 0x03, 0xa9, 0x80, 0x3c, 0x50, 0xa6, 0x58,
    ];
    let wanted: [u8; 44] = [
        0x01, 0x64, 0x00, 0x0b, 0xff, 0xe1, 0x00, 0x17, 0x67, 0x64, 0x00, 0x0b, 0xac, 0xd9, 0x43,
        0x0f, 0xfb, 0xc0, 0x44, 0x00, 0x00, 0x0f, 0xa4, 0x00, 0x03, 0xa9, 0x80, 0x3c, 0x50, 0xa6,
        0x58, 0x01, 0x00, 0x06, 0x68, 0xea, 0xe0, 0xa4, 0xb2, 0x2c, 0xfd, 0xf8, 0xf8, 0x00,
    ];
    let mut pictures = Vec::new(rt.alloc());
    pictures.push(Vec::from_slice(rt.alloc(), &[0x68, 0xea, 0xe0, 0xa4, 0xb2, 0x2c])?)?;
    if let Ok(fields) = read_sps(&unit) {
        let body = make_avcc(rt.alloc(), &unit, &fields, pictures.as_slice())?;
        assert!(&rt; body.as_slice() == wanted.as_slice());
    }
    assert!(&rt; read_sps(&unit).is_ok());
    Ok(())
}
