// Lines that cut: what is left, in which scales and edits, and what is refused. The numbers were computed by hand in
// exact fractions.
use super::FRAME;
use super::edits::changed;
use super::pairs::{MEDIA, TABLE, refused, run};
use crate::Ending;
use mp_ports::Code;
use std::alloc::Global;
use std::process::Abort;
use std::test::Fail;

// When a unit is decoded and composed, and whether it may be decoded first.
type Unit = (u32, u32, bool);

// A table and its media.
type Pair<'a> = (&'a [u8], &'a [u8]);

// The head of a table of pictures (object type 0x20) with so many ticks a second.
fn head(alloc: Global, scale: u32) -> Result<Vec<u8>, Fail> {
    let mut table = b"NHnt\x00\x04\x20".to_vec(alloc)?;
    table.extend_from_slice(&[0; 13])?;
    table.extend_from_slice(&scale.to_be_bytes())?;
    Ok(table)
}

// Adds a whole unit, of the byte at that place.
fn push_unit(table: &mut Vec<u8>, place: u32, unit: Unit) -> Result<(), Fail> {
    let (decode, composition, first) = unit;
    table.extend_from_slice(&[0, 0, 1, if first { 0xe0 } else { 0x60 }])?;
    table.extend_from_slice(&place.to_be_bytes())?;
    table.extend_from_slice(&composition.to_be_bytes())?;
    table.extend_from_slice(&decode.to_be_bytes())?;
    Ok(())
}

// A table of these units, one byte each.
fn table(alloc: Global, scale: u32, units: &[Unit]) -> Result<Vec<u8>, Fail> {
    let mut table = head(alloc, scale)?;
    let mut place = 0_u32;
    for unit in units {
        push_unit(&mut table, place, *unit)?;
        place = place.wrapping_add(1);
    }
    Ok(table)
}

// So many frames.
fn frames(alloc: Global, count: u32) -> Result<Vec<u8>, Fail> {
    let mut stream = Vec::new(alloc);
    for _ in 0..count {
        stream.extend_from_slice(FRAME)?;
    }
    Ok(stream)
}

// The file that a line writes.
fn written(
    rt: &impl Abort,
    alloc: Global,
    texts: &[&str],
    held: &[(&str, &[u8])],
) -> Result<Vec<u8>, Fail> {
    let got = run(alloc, texts, held, &[])?;
    assert_eq!(rt; got.ending, Ending::Done, "{texts:?}");
    Ok(got.written)
}

// What a file presents, as it is told.
fn told(alloc: Global, file: &[u8]) -> Result<Vec<u8>, Fail> {
    let told = run(alloc, &["-timeline", "o.mp4"], &[("o.mp4", file)], &[])?;
    Ok(told.said)
}

// What is told of the file that a line writes of this pair begins so, and it ends in these bytes.
fn presents<'a>(
    rt: &impl Abort,
    alloc: Global,
    texts: &[&str],
    pair: Pair<'a>,
    front: &[u8],
    end: &[u8],
) -> Result<(), Fail> {
    let held = [("n.nhnt", pair.0), ("n.media", pair.1)];
    let file = written(rt, alloc, texts, &held)?;
    let said = told(alloc, &file)?;
    assert!(rt; said.starts_with(front), "{texts:?}");
    assert!(rt; file.ends_with(end), "{texts:?}");
    Ok(())
}

// The option of that number is refused so, over a frame as `a.aac` and this pair, and nothing is written.
fn is_refused<'a>(
    rt: &impl Abort,
    alloc: Global,
    texts: &[&str],
    pair: Pair<'a>,
    code: Code,
    command: u32,
) -> Result<(), Fail> {
    let held = [("a.aac", FRAME), ("n.nhnt", pair.0), ("n.media", pair.1)];
    let got = run(alloc, texts, &held, &[])?;
    assert_eq!(rt; got.ending, refused(code, command, 0, 0), "{texts:?}");
    assert_eq!(rt; got.written.len(), 0, "{texts:?}");
    Ok(())
}

#[test]
fn cuts_that_are_refused(rt: HostRuntime) -> Result<(), Fail> {
    let alloc = rt.alloc();
    let pair = (TABLE, MEDIA);
    let line = ["-add", "a.aac", "-split-chunk", "2:1", "-out", "o.mp4"];
    is_refused(&rt, alloc, &line, pair, Code::BadRange, 2)?;
    let line = ["-split-chunk", "1.5:1.50", "-add", "a.aac", "-out", "o.mp4"];
    is_refused(&rt, alloc, &line, pair, Code::BadRange, 1)?;
    let line = ["-split-chunk", "0:1", "-out", "o.mp4"];
    is_refused(&rt, alloc, &line, pair, Code::EmptyMovie, 2)?;
    // a thousandth of a second isn't whole in any multiple of the greatest scale
    let units = [(0, 0, true), (4_294_967_295, 4_294_967_295, true)];
    let long = table(alloc, 4_294_967_295, &units)?;
    let line = ["-add", "n.nhnt", "-split-chunk", "0.001:1", "-out", "o.mp4"];
    is_refused(&rt, alloc, &line, (&long, b"ab"), Code::ScaleLimit, 2)
}

#[test]
fn short_cuts(rt: HostRuntime) -> Result<(), Fail> {
    let alloc = rt.alloc();
    // three pictures that are shown in another order, of which the second is shown first
    let units = [(0, 200, true), (100, 0, true), (200, 100, true)];
    presents(
        &rt,
        alloc,
        &["-add", "n.nhnt", "-split-chunk", "0:0.1", "-out", "o.mp4"],
        (&table(alloc, 1000, &units)?, b"abc"),
        b"movie scale 1000 duration 100 tracks 1\n\
          track 1 handler vide entry mp4v scale 1000 samples 1 sync 1 bytes 1 \
          duration 100 language und enabled edits 1\n\
          edit media 0 100\n\
          sample 1 size 1 decode 0 duration 100 composition 0 sync entry 1\n",
        b"\x00\x00\x00\x09mdatb",
    )?;
    // half a millisecond needs finer scales
    presents(
        &rt,
        alloc,
        &[
            "-add",
            "n.nhnt",
            "-split-chunk",
            "0.0005:0.05",
            "-out",
            "o.mp4",
        ],
        (TABLE, MEDIA),
        b"movie scale 2000 duration 99 tracks 1\n\
          track 1 handler soun entry mp4a scale 2000 samples 1 sync 1 bytes 2 \
          duration 100 language und enabled edits 1\n\
          edit media 1 99\n\
          sample 1 size 2 decode 0 duration 100 composition 0 sync entry 1\n",
        b"\x00\x00\x00\x0amdat\xaa\xbb",
    )?;
    // what is cut twice
    presents(
        &rt,
        alloc,
        &[
            "-add",
            "n.nhnt",
            "-split-chunk",
            "0.01:0.09",
            "-split-chunk",
            "0.05:1",
            "-out",
            "o.mp4",
        ],
        (TABLE, MEDIA),
        b"movie scale 1000 duration 30 tracks 1\n\
          track 1 handler soun entry mp4a scale 1000 samples 1 sync 1 bytes 2 \
          duration 50 language und enabled edits 1\n\
          edit media 10 30\n\
          sample 1 size 2 decode 0 duration 50 composition 0 sync entry 1\n",
        b"\x00\x00\x00\x0amdat\xcc\xdd",
    )
}

#[test]
fn pictures_from_a_sync_sample_on(rt: HostRuntime) -> Result<(), Fail> {
    let alloc = rt.alloc();
    // fifty pictures, of which the first and the eleventh may be decoded first
    let mut table = head(alloc, 25)?;
    for number in 0..50_u32 {
        let first = number == 0 || number == 10;
        push_unit(&mut table, number, (number, number, first))?;
    }
    presents(
        &rt,
        alloc,
        &["-add", "n.nhnt", "-split-chunk", "0.5:1.0", "-out", "o.mp4"],
        (
            &table,
            b"ABCDEFGHIJKLMNOPQRSTUVWXYZabcdefghijklmnopqrstuvwx",
        ),
        b"movie scale 1000 duration 500 tracks 1\n\
          track 1 handler vide entry mp4v scale 50 samples 15 sync 1 bytes 15 \
          duration 30 language und enabled edits 1\n\
          edit media 5 500\n\
          sample 1 size 1 decode 0 duration 2 composition 0 sync entry 1\n\
          sample 2 size 1 decode 2 duration 2 composition 2 plain entry 1\n",
        b"mdatKLMNOPQRSTUVWXY",
    )
}

#[test]
fn a_track_that_ends_before_the_range(rt: HostRuntime) -> Result<(), Fail> {
    let alloc = rt.alloc();
    let line = [
        "-add",
        "n.nhnt",
        "-add",
        "a.aac",
        "-split-chunk",
        "0.2:0.5",
        "-out",
        "o.mp4",
    ];
    let stream = frames(alloc, 43)?;
    let held = [
        ("n.nhnt", TABLE),
        ("n.media", MEDIA),
        ("a.aac", stream.as_slice()),
    ];
    let file = written(&rt, alloc, &line, &held)?;
    let said = told(alloc, &file)?;
    assert!(rt;
        said.starts_with(
            b"movie scale 1000 duration 300 tracks 2\n\
              track 1 handler soun entry mp4a scale 1000 samples 0 sync 0 bytes 0 \
              duration 0 language und enabled edits 1\n\
              edit empty 0\n\
              track 2 handler soun entry mp4a scale 44100 samples 14 sync 14 bytes 28 \
              duration 14336 language und enabled edits 1\n\
              edit media 628 300\n\
              sample 1 size 2 decode 0 duration 1024 composition 0 sync entry 1\n"
        )
    );
    Ok(())
}

// How many pictures of a group of so many are shown before the one of that place, which are shown in the order 0, 4, 2,
// 1, 3, 8, 6, 5, 7 and so on, the last one last.
fn rank(place: u32, many: u32) -> u32 {
    let later = match place % 4 {
        1 => place.wrapping_add(3),
        2 => place,
        3 => place.wrapping_sub(2),
        _ => place.wrapping_sub(1),
    };
    if place == 0 || place.wrapping_add(1) == many {
        place
    } else {
        later
    }
}

// A table of 1800 pictures of 1001 ticks, in groups of 250.
fn pictures(alloc: Global) -> Result<Vec<u8>, Fail> {
    let mut table = head(alloc, 30_000)?;
    for number in 0..1800_u32 {
        let place = number % 250;
        let shown = rank(place, if number < 1750 { 250 } else { 50 });
        let composition = (number - place).wrapping_add(shown).wrapping_add(2);
        let unit = (number * 1001, composition.wrapping_mul(1001), place == 0);
        push_unit(&mut table, number, unit)?;
    }
    Ok(table)
}

// The same film in a movie of 1000 ticks a second, whose track shows its media from one tick on for so many
// (ISO/IEC 14496-12, 8.2.2 and 8.6.6).
fn edited(film: Vec<u8>, start: u32, duration: u32) -> Vec<u8> {
    let [a, b, c, d] = duration.to_be_bytes();
    let [e, f, g, h] = start.to_be_bytes();
    changed(
        film,
        &[
            (56, 0),
            (57, 0),
            (58, 3),
            (59, 0xe8),
            (268, a),
            (269, b),
            (270, c),
            (271, d),
            (272, e),
            (273, f),
            (274, g),
            (275, h),
        ],
    )
}

// A film of a minute: pictures, sound, and a third track.
fn film(rt: &impl Abort, alloc: Global) -> Result<Vec<u8>, Fail> {
    let table = pictures(alloc)?;
    let bytes = frames(alloc, 200)?;
    let held: [(&str, &[u8]); 2] = [("v.nhnt", &table), ("v.media", &bytes)];
    let line = ["-add", "v.nhnt", "-delay", "1=-1", "-out", "o.mp4"];
    let video = edited(written(rt, alloc, &line, &held)?, 2002, 60_060);
    let stream = frames(alloc, 2584)?;
    let line = ["-add", "a.aac", "-delay", "1=-10", "-out", "o.mp4"];
    let audio = written(rt, alloc, &line, &[("a.aac", &stream)])?;
    let audio = edited(audio, 1024, 59_977);
    let line = [
        "-add", "v.mp4", "-add", "a.mp4", "-add", "n.nhnt", "-out", "o.mp4",
    ];
    let held: [(&str, &[u8]); 4] = [
        ("v.mp4", &video),
        ("a.mp4", &audio),
        ("n.nhnt", TABLE),
        ("n.media", MEDIA),
    ];
    written(rt, alloc, &line, &held)
}

#[test]
fn a_part_of_a_film(rt: HostRuntime) -> Result<(), Fail> {
    let alloc = rt.alloc();
    let film = film(&rt, alloc)?;
    let line = [
        "-add",
        "in.mp4",
        "-rem",
        "3",
        "-split-chunk",
        "10:20.5",
        "-out",
        "o.mp4",
    ];
    let file = written(&rt, alloc, &line, &[("in.mp4", &film)])?;
    let said = told(alloc, &file)?;
    assert!(rt;
        said.starts_with(
            b"movie scale 1000 duration 10500 tracks 2\n\
              track 1 handler vide entry mp4v scale 30000 samples 366 sync 2 bytes 366 \
              duration 366366 language und enabled edits 1\n\
              edit media 51752 10500\n\
              sample 1 size 1 decode 0 duration 1001 composition 2002 sync entry 1\n"
        )
    );
    let sound: &[u8] = b"\n\
        track 2 handler soun entry mp4a scale 44100 samples 453 sync 453 bytes 906 \
        duration 463872 language und enabled edits 1\n\
        edit media 680 10500\n\
        sample 1 size 2 decode 0 duration 1024 composition 0 sync entry 1\n";
    assert!(rt; said.windows(sound.len()).any(|part| part == sound));
    assert!(rt;
        said.ends_with(
            b"\nsample 453 size 2 decode 462848 duration 1024 composition 462848 sync entry 1\n"
        )
    );
    Ok(())
}
