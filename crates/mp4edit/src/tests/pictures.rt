// Lines that read streams of H.264, over files in memory. The streams and what they come to are laid
// out by hand.
use super::FRAME;
use super::pairs::{refused, run};
use crate::Ending;
use mp_ports::Code;
use std::alloc::Global;
use std::process::Abort;
use std::test::Fail;

// A sequence parameter set of pictures of 16 by 16 with counts of type 2, a picture parameter set, an
// IDR picture at 18.
const ONE: &[u8] = b"\x00\x00\x00\x01\x67\x42\x00\x0a\xda\x79\x00\x00\x00\x01\x68\xce\x38\x80\
    \x00\x00\x01\x65\x88\x84\x80";

// Counts of type 0: 0, 6, 2 and 4.
const FOUR: &[u8] = b"\x00\x00\x00\x01\x67\x42\x00\x0a\xf4\xf2\x00\x00\x00\x01\x68\xce\x38\x80\
    \x00\x00\x00\x01\x65\x88\x84\x0c\x00\x00\x00\x01\x41\x88\x8b\x30\
    \x00\x00\x00\x01\x01\x88\x91\x60\x00\x00\x00\x01\x01\x88\x92\x60";

#[test]
fn a_stream_of_pictures_is_written(rt: HostRuntime) -> Result<(), Fail> {
    let alloc = rt.alloc();
    let line = ["-add", "v.h264", "-out", "o.mp4"];
    let got = run(alloc, &line, &[("v.h264", ONE)], &[])?;
    assert_eq!(rt; got.ending, Ending::Done);
    assert_eq!(rt;
        got.said.as_slice(),
        b"wrote o.mp4 tracks 1 samples 1 bytes 628\n".as_slice()
    );
    assert!(rt;
        got.written
            .ends_with(b"\x00\x00\x00\x10mdat\x00\x00\x00\x04\x65\x88\x84\x80")
    );
    Ok(())
}

#[test]
fn pictures_stand_beside_sound(rt: HostRuntime) -> Result<(), Fail> {
    let alloc = rt.alloc();
    let line = [
        "-add",
        "a.aac",
        "-add",
        "v.264:fps=30000/1001",
        "-out",
        "o.mp4",
    ];
    let got = run(alloc, &line, &[("a.aac", FRAME), ("v.264", ONE)], &[])?;
    assert_eq!(rt; got.ending, Ending::Done);
    // the files of one track have 578 and 628 bytes, of which 136 and 8 are said once
    assert_eq!(rt;
        got.said.as_slice(),
        b"wrote o.mp4 tracks 2 samples 2 bytes 1054\n".as_slice()
    );
    Ok(())
}

#[test]
fn pictures_are_shown_in_the_order_of_their_counts(rt: HostRuntime) -> Result<(), Fail> {
    let alloc = rt.alloc();
    let line = ["-add", "V.AVC:fps=25", "-out", "o.mp4"];
    let got = run(alloc, &line, &[("V.AVC", FOUR)], &[])?;
    assert_eq!(rt; got.ending, Ending::Done);
    let told = run(
        alloc,
        &["-timeline", "o.mp4"],
        &[("o.mp4", &got.written)],
        &[],
    )?;
    assert_eq!(rt;
        told.said.as_slice(),
        b"movie scale 1000 duration 160 tracks 1\n\
          track 1 handler vide entry avc1 scale 25 samples 4 sync 1 bytes 32 \
          duration 4 language und enabled edits 1\n\
          edit media 1 160\n\
          sample 1 size 8 decode 0 duration 1 composition 1 sync entry 1\n\
          sample 2 size 8 decode 1 duration 1 composition 4 plain entry 1\n\
          sample 3 size 8 decode 2 duration 1 composition 2 plain entry 1\n\
          sample 4 size 8 decode 3 duration 1 composition 3 plain entry 1\n"
            .as_slice()
    );
    Ok(())
}

// Counts of type 0, whose low parts have four bits: 0, 7, 14 and 1, which is 17.
const TURNED: &[u8] = b"\x00\x00\x00\x01\x67\x42\x00\x0a\xf4\xf2\x00\x00\x00\x01\x68\xce\x38\x80\
    \x00\x00\x01\x65\x88\x84\x08\x00\x00\x01\x41\x9a\x2e\x20\
    \x00\x00\x01\x41\x9a\x5c\x20\x00\x00\x01\x41\x9a\x62\x20";

#[test]
fn counts_go_on_where_their_low_parts_turn(rt: HostRuntime) -> Result<(), Fail> {
    let alloc = rt.alloc();
    let line = ["-add", "v.h264", "-out", "o.mp4"];
    let got = run(alloc, &line, &[("v.h264", TURNED)], &[])?;
    assert_eq!(rt; got.ending, Ending::Done);
    let told = run(
        alloc,
        &["-timeline", "o.mp4"],
        &[("o.mp4", &got.written)],
        &[],
    )?;
    assert_eq!(rt;
        told.said.as_slice(),
        b"movie scale 1000 duration 160 tracks 1\n\
          track 1 handler vide entry avc1 scale 25 samples 4 sync 1 bytes 32 \
          duration 4 language und enabled edits none\n\
          sample 1 size 8 decode 0 duration 1 composition 0 sync entry 1\n\
          sample 2 size 8 decode 1 duration 1 composition 1 plain entry 1\n\
          sample 3 size 8 decode 2 duration 1 composition 2 plain entry 1\n\
          sample 4 size 8 decode 3 duration 1 composition 3 plain entry 1\n"
            .as_slice()
    );
    Ok(())
}

// The stream of one picture with that byte at 21, where its slice stands.
fn with_slice(alloc: Global, byte: u8) -> Result<Vec<u8>, Fail> {
    let mut bytes = ONE[..21].to_vec(alloc)?;
    bytes.push(byte)?;
    bytes.extend_from_slice(&ONE[22..])?;
    Ok(bytes)
}

// The stream of one picture without its picture parameter set.
fn without_set(alloc: Global) -> Result<Vec<u8>, Fail> {
    let mut bytes = ONE[..10].to_vec(alloc)?;
    bytes.extend_from_slice(&ONE[18..])?;
    Ok(bytes)
}

// The line that adds a stream of these bytes is refused so, and nothing is written.
fn is_refused(
    rt: &impl Abort,
    alloc: Global,
    bytes: &[u8],
    code: Code,
    place: u64,
) -> Result<(), Fail> {
    let line = ["-add", "v.h264", "-out", "o.mp4"];
    let got = run(alloc, &line, &[("v.h264", bytes)], &[])?;
    assert_eq!(rt; got.ending, refused(code, 1, 0, place));
    assert_eq!(rt; got.written.len(), 0);
    Ok(())
}

#[test]
fn streams_are_refused_at_their_first_fault(rt: HostRuntime) -> Result<(), Fail> {
    let alloc = rt.alloc();
    let not_first = with_slice(alloc, 0x01)?;
    is_refused(&rt, alloc, &not_first, Code::FirstNotIdr, 21)?;
    let no_reference = with_slice(alloc, 0x05)?;
    is_refused(&rt, alloc, &no_reference, Code::SliceSyntax, 21)?;
    let unknown = with_slice(alloc, 0x6e)?;
    is_refused(&rt, alloc, &unknown, Code::UnitType, 21)?;
    let no_set = without_set(alloc)?;
    is_refused(&rt, alloc, &no_set, Code::SetMissing, 13)?;
    is_refused(&rt, alloc, &ONE[..18], Code::NoPicture, 0)?;
    is_refused(&rt, alloc, b"\x00\x00\x00", Code::NoPicture, 0)?;
    is_refused(
        &rt,
        alloc,
        b"\x00\x00\x01\x00\x00\x01",
        Code::UnitFraming,
        3,
    )
}
