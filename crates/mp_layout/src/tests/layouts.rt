//! Where chunks stand, and which tracks have places of 64 bits. The rows were laid out by `tools/layout.py`.
ghost use Rattle.std.specs.Prelude.{◌≡◌, ◌≢◌, ◌≤◌, IfOk, length};
ghost use Rattle.mp_movie.specs.Placed.{plain_scale};
ghost use Rattle.mp_movie.specs.WholeParts.{AreTrackParts};

use super::*;
use mp_interleave::Chunk;
use std::test::Fail;

// A track of that number, with samples of this duration and so many bytes each.
fn track_of(
    rt: &impl Abort,
    alloc: Global,
    number: u32,
    delta: u32,
    sizes: &[u32],
) -> Result<Track, AllocError>
    requires { 1 ≤ number }
    ensures parts { IfOk result (λ track. AreTrackParts plain_scale track) }
    ensures number { IfOk result (λ track. track.number ≡ number) }
{
    let mut track = bare(alloc, *b"soun", number)?;
    for size in sizes {
        track = with_sample(rt, track, delta, 0, true, &[piece(0, 0, *size)])?;
    }
    Ok(track)
}

// The movie of these three.
fn movie_of_three(
    alloc: Global,
    one: Track,
    other: Track,
    third: Track,
) -> Result<Movie, AllocError>
    requires one { AreTrackParts plain_scale one }
    requires other { AreTrackParts plain_scale other }
    requires third { AreTrackParts plain_scale third }
    requires first { one.number ≡ 1 }
    requires second { other.number ≡ 2 }
    requires last { third.number ≡ 3 }
{
    let mut tracks = Vec::new(alloc);
    tracks.push(one)?;
    tracks.push(other)?;
    tracks.push(third)?;
    movie_of_all(alloc, tracks)
}

// The chunks of a file: the position of the track, the first sample, how many, and the place.
type Row = (u32, u32, u32, u64);

// The chunks stand there, and these tracks have places of 64 bits.
fn check_layout(rt: &impl Abort, plan: &FilePlan, rows: &[Row], wide: &[bool]) {
    assert_eq!(rt; plan.plan.chunks.len(), rows.len());
    assert_eq!(rt; plan.offsets.len(), rows.len());
    for (at, row) in rows.iter().enumerate() {
        let chunk = Chunk {
            track: row.0,
            first: row.1,
            count: row.2,
        };
        assert!(rt; plan.plan.chunks[at] == chunk, "chunk {at}");
        assert_eq!(rt; plan.offsets[at], row.3);
    }
    assert!(rt; &*plan.wide == wide);
}

// The chunks of two tracks of a sample each, of so many bytes and of 2000, stand there, the second with places of 64
// bits or not.
fn check_two(
    rt: &impl Abort,
    alloc: Global,
    size: u32,
    rows: &[Row],
    wide: bool,
) -> Result<(), AllocError> {
    let one = track_of(rt, alloc, 1, 1024, &[size])?;
    let other = track_of(rt, alloc, 2, 1024, &[2000])?;
    let movie = movie_of_two(alloc, one, other)?;
    let plan = plan_of(alloc, &movie, 0)?;
    check_layout(rt, &plan, rows, &[false, wide]);
    Ok(())
}

// A place of 4,294,967,295 is the last of 32 bits; with a byte more the second track has places of 64.
#[test]
fn two_long_tracks(rt: HostRuntime) -> Result<(), Fail> {
    let alloc = rt.alloc();
    let near = [(0, 1, 1, 1008), (1, 1, 1, 4_294_967_295)];
    check_two(&rt, alloc, 4_294_966_287, &near, false)?;
    let far = [(0, 1, 1, 1012), (1, 1, 1, 4_294_967_300)];
    check_two(&rt, alloc, 4_294_966_288, &far, true)?;
    Ok(())
}

// Three tracks of a sample each, of so many bytes, of one and of 2000.
fn three_tracks(rt: &impl Abort, alloc: Global, size: u32) -> Result<Movie, AllocError> {
    let one = track_of(rt, alloc, 1, 1024, &[size])?;
    let other = track_of(rt, alloc, 2, 1024, &[1])?;
    let third = track_of(rt, alloc, 3, 1024, &[2000])?;
    movie_of_three(alloc, one, other, third)
}

// Their chunks stand there, the second and the third with places of 64 bits or not.
fn check_three(
    rt: &impl Abort,
    alloc: Global,
    size: u32,
    rows: &[Row],
    wide: bool,
) -> Result<(), AllocError> {
    let movie = three_tracks(rt, alloc, size)?;
    let plan = plan_of(alloc, &movie, 0)?;
    check_layout(rt, &plan, rows, &[false, wide, wide]);
    Ok(())
}

// Where the third track's place needs 64 bits, its place takes the second's above 32 too.
#[test]
fn three_long_tracks(rt: HostRuntime) -> Result<(), Fail> {
    let alloc = rt.alloc();
    let near = [
        (0, 1, 1, 1432),
        (1, 1, 1, 4_294_967_294),
        (2, 1, 1, 4_294_967_295),
    ];
    check_three(&rt, alloc, 4_294_965_862, &near, false)?;
    let far = [
        (0, 1, 1, 1440),
        (1, 1, 1, 4_294_967_303),
        (2, 1, 1, 4_294_967_304),
    ];
    check_three(&rt, alloc, 4_294_965_863, &far, true)?;
    Ok(())
}

// Samples of a quarter and of half a second, in windows of half a second, of any length, and of 300 milliseconds.
#[test]
fn tracks_in_turn(rt: HostRuntime) -> Result<(), Fail> {
    let rows: [(u32, &[Row]); 3] = [
        (
            500,
            &[
                (0, 1, 2, 1008),
                (1, 1, 1, 1010),
                (0, 3, 2, 1011),
                (1, 2, 1, 1013),
            ],
        ),
        (0, &[(0, 1, 4, 1000), (1, 1, 2, 1004)]),
        (
            300,
            &[
                (0, 1, 2, 1024),
                (1, 1, 1, 1026),
                (0, 3, 1, 1027),
                (1, 2, 1, 1028),
                (0, 4, 1, 1029),
            ],
        ),
    ];
    let alloc = rt.alloc();
    let one = track_of(&rt, alloc, 1, 11_025, &[1, 1, 1, 1])?;
    let other = track_of(&rt, alloc, 2, 22_050, &[1, 1])?;
    let movie = movie_of_two(alloc, one, other)?;
    for (millis, chunks) in rows {
        let plan = plan_of(alloc, &movie, millis)?;
        check_layout(&rt, &plan, chunks, &[false, false]);
    }
    Ok(())
}

// The front of the file of a track of samples of so many bytes ends with that header, and the payload follows it.
fn check_head(
    rt: &impl Abort,
    alloc: Global,
    sizes: &[u32],
    head: &[u8],
    payload: u64,
) -> Result<(), AllocError> {
    let track = track_of(rt, alloc, 1, 1024, sizes)?;
    let movie = movie_of(alloc, track)?;
    let plan = plan_of(alloc, &movie, 0)?;
    assert!(rt; plan.front.ends_with(head));
    assert_eq!(rt;
        plan.length,
        (plan.front.len() as u64).wrapping_add(payload)
    );
    Ok(())
}

// The size of `mdat` takes 64 bits from a payload of 4,294,967,288 bytes on.
#[test]
fn long_payloads(rt: HostRuntime) -> Result<(), Fail> {
    let alloc = rt.alloc();
    let short = b"\xff\xff\xff\xffmdat";
    check_head(&rt, alloc, &[4_294_967_287, 0], short, 4_294_967_287)?;
    let long = b"\x00\x00\x00\x01mdat\x00\x00\x00\x01\x00\x00\x00\x08";
    check_head(&rt, alloc, &[4_294_967_288, 0], long, 4_294_967_288)?;
    let both = b"\x00\x00\x00\x01mdat\x00\x00\x00\x02\x00\x00\x00\x0e";
    check_head(
        &rt,
        alloc,
        &[4_294_967_295, 4_294_967_295],
        both,
        8_589_934_590,
    )?;
    Ok(())
}

// One sample of 4,294,967,288 bytes stands behind a header of 16 bytes, at place 584, and its place fits 32 bits.
#[test]
fn one_long_sample(rt: HostRuntime) -> Result<(), Fail> {
    let alloc = rt.alloc();
    let track = track_of(&rt, alloc, 1, 1024, &[4_294_967_288])?;
    let movie = movie_of(alloc, track)?;
    let plan = plan_of(alloc, &movie, 0)?;
    check_layout(&rt, &plan, &[(0, 1, 1, 584)], &[false]);
    Ok(())
}
