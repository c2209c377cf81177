//! Cuts of whole movies. The numbers were computed by an independent script over whole fractions.
ghost use Rattle.std.specs.Prelude.{◌≡◌, ◌<◌, ◌^◌, ◌≤ℤ◌, pos, IfOk, length};
ghost use Rattle.mp_boxes.specs.Boxes.{IsBytes};
ghost use Rattle.mp_entries.specs.Entry.{IsEntry};
ghost use Rattle.mp_movie.specs.WholeParts.{AreTrackParts};

use crate::cut;
use mp_columns::Column;
use mp_entries::{EsdsEntry, esds_entry};
use mp_frac::Frac;
use mp_movie::{Movie, Track, a_sample_follows, plain_heads_fit};
use mp_ports::{Bad, Code, Fail as Refusal};
use mp_timeline::{EntryBytes, Segment, TrackHead};
use std::alloc::{AllocError, Global};
use std::process::Abort;
use std::test::Fail;
use track_ops::{Choice, add_tracks};

/// A movie of one track: its scale, that of its track, and the track's edits, none where there are no segments.
type Film<'a> = (u32, u32, &'a [Segment]);

/// How long a sample lasts, its composition offset, and whether it is a sync sample.
type Sample = (u32, i64, bool);

/// A moment, in seconds.
type Moment = (u64, u32);

/// How many samples are left, and the duration and the offset of the first of them.
type Left = (u32, i64, i64);

/// A film and its samples, from when up to when it is cut, the refusal, and the film and the samples that are left.
type Row<'a> = (
    Film<'a>,
    &'a [Sample],
    Moment,
    Moment,
    Option<Code>,
    Film<'a>,
    Left,
);

const fn empty(dur: u64) -> Segment {
    Segment::Empty { dur }
}

const fn media(start: u64, dur: u64) -> Segment {
    Segment::Media { start, dur }
}

fn entry(alloc: Global) -> Result<EntryBytes, AllocError>
    ensures entry { IfOk result (λ entry. IsEntry entry) }
    ensures bytes { IfOk result (λ entry. IsBytes entry) }
    ensures len { IfOk result (λ entry. length entry < 2 ^ 24) }
{
    let entry = EsdsEntry {
        audio: true,
        object: 0x40,
        channels: 2,
        rate: 44_100,
        buffer: 0,
        maximal: 0,
        average: 0,
        info: Vec::from_slice(alloc, &[0x12, 0x10])?,
    };
    let bytes = esds_entry(alloc, &entry).map_err(|_| AllocError)?;
    are_bytes(&bytes);
    Ok(EntryBytes { bytes })
}

// Each is below 256, as their type says.
fn are_bytes(bytes: &[u8])
    ensures { IsBytes bytes.now }
{}

// A track of that scale and of one entry, without samples and edits, in a movie of the other scale.
fn bare(rt: &impl Abort, alloc: Global, movie: u32, scale: u32) -> Result<Track, AllocError>
    ensures parts { IfOk result (λ track. AreTrackParts movie track) }
    ensures entries { IfOk result (λ track. length track.entries ≡ 1) }
{
    plain_heads_fit();
    assert!(rt; movie > 0);
    assert!(rt; scale > 0);
    let head = TrackHead::plain(alloc, *b"soun")?;
    let mut entries = Vec::new(alloc);
    entries.push(entry(alloc)?)?;
    Ok(Track::new(alloc, 1, head, scale, entries))
}

// The track with these edits, with none where there are no segments.
fn with_edits(
    alloc: Global,
    movie: u32,
    mut track: Track,
    edits: &[Segment],
) -> Result<Track, AllocError>
    requires parts { AreTrackParts movie track }
    requires entries { length track.entries ≡ 1 }
    ensures parts { IfOk result (λ later. AreTrackParts movie later) }
    ensures entries { IfOk result (λ later. length later.entries ≡ 1) }
{
    if edits.is_empty() {
        return Ok(track);
    }
    let list = Vec::from_slice(alloc, edits)?;
    track.edits = Some(list);
    Ok(track)
}

// A film without samples.
fn film_of(rt: &impl Abort, alloc: Global, film: Film) -> Result<Track, AllocError>
    ensures parts { IfOk result (λ track. AreTrackParts film.entry.0 track) }
    ensures entries { IfOk result (λ track. length track.entries ≡ 1) }
{
    let track = bare(rt, alloc, film.0, film.1)?;
    with_edits(alloc, film.0, track, film.2)
}

// The track with one sample more, of no bytes.
fn with_sample(
    rt: &impl Abort,
    movie: u32,
    mut track: Track,
    sample: Sample,
) -> Result<Track, AllocError>
    requires parts { AreTrackParts movie track }
    requires entries { length track.entries ≡ 1 }
    ensures parts { IfOk result (λ later. AreTrackParts movie later) }
    ensures entries { IfOk result (λ later. length later.entries ≡ 1) }
{
    a_sample_follows();
    assert!(rt; track.deltas.len() < 10_000);
    match track.push_sample(sample.0, sample.1, sample.2, 1, &[]) {
        Ok(()) => Ok(track),
        Err(_) => Err(AllocError),
    }
}

/// The movie of a film with these samples.
fn movie_of(
    rt: &impl Abort,
    alloc: Global,
    film: Film,
    samples: &[Sample],
) -> Result<Movie, AllocError> {
    let mut track = film_of(rt, alloc, film)?;
    for sample in samples {
        track = with_sample(rt, film.0, track, *sample)?;
    }
    assert!(rt; film.0 > 0);
    match Movie::from_scaled(alloc, film.0, track) {
        Ok(movie) => Ok(movie),
        Err(_) => Err(AllocError),
    }
}

/// Whether that is left of a track.
fn is_left(track: &Track, left: Left) -> bool {
    if track.deltas.len() == 0 || track.offsets.len() == 0 {
        return left.0 == 0;
    }
    track.deltas.len() == left.0 && track.deltas.at(0) == left.1 && track.offsets.at(0) == left.2
}

/// Whether the movie's track at that place has that scale, these edits and these samples.
fn is_track(movie: &Movie, at: usize, film: Film, left: Left) -> bool {
    let Some(track) = movie.tracks().get(at) else {
        return false;
    };
    let edits = match &track.edits {
        Some(edits) => edits.as_slice() == film.2,
        None => film.2.is_empty(),
    };
    movie.scale() == film.0 && track.scale == film.1 && edits && is_left(track, left)
}

/// The movie, cut from one moment up to another.
fn cut_of(
    rt: &impl Abort,
    alloc: Global,
    movie: Movie,
    from: Moment,
    to: Moment,
) -> Result<Movie, (Refusal, Movie)> {
    assert!(rt; from.1 > 0);
    assert!(rt; to.1 > 0);
    let begin = Frac {
        n: i128::from(from.0),
        d: from.1,
    };
    let end = Frac {
        n: i128::from(to.0),
        d: to.1,
    };
    cut(alloc, movie, begin, end)
}

/// Whether the cut answers as the row says, and leaves what it says.
fn is_as_wanted(rt: &impl Abort, alloc: Global, row: &Row) -> Result<bool, AllocError> {
    let (film, samples, from, to, code, wanted, left) = row;
    let movie = movie_of(rt, alloc, *film, samples)?;
    match (cut_of(rt, alloc, movie, *from, *to), *code) {
        (Ok(new), None) => Ok(is_track(&new, 0, *wanted, *left)),
        (Err((Refusal::Bad(bad), back)), Some(code)) => {
            Ok(bad == Bad::at(code, 0) && is_track(&back, 0, *wanted, *left))
        }
        _ => Ok(false),
    }
}

fn check(rt: &impl Abort, alloc: Global, rows: &[Row]) -> Result<(), AllocError> {
    for (index, row) in rows.iter().enumerate() {
        assert!(rt; is_as_wanted(rt, alloc, row)?, "{index}");
    }
    Ok(())
}

#[test]
fn ranges_of_a_track(rt: HostRuntime) -> Result<(), Fail> {
    let rows: [Row; 8] = [
        // the three sync samples of one track, composed in another order
        (
            (1000, 1000, &[]),
            &[(100, 200, true), (100, -100, true), (100, -100, true)],
            (0, 1),
            (1, 10),
            None,
            (1000, 1000, &[media(0, 100)]),
            (1, 100, 0),
        ),
        // a cut within a sample needs finer scales
        (
            (1000, 1000, &[]),
            &[(50, 0, true), (50, 0, true)],
            (5, 10_000),
            (5, 100),
            None,
            (2000, 2000, &[media(1, 99)]),
            (1, 100, 0),
        ),
        // no multiple of the scale is within 32 bits
        (
            (1000, 4_294_967_295, &[]),
            &[(4_294_967_295, 0, true), (4_294_967_295, 0, true)],
            (1, 1000),
            (1, 1),
            Some(Code::ScaleLimit),
            (1000, 4_294_967_295, &[]),
            (2, 4_294_967_295, 0),
        ),
        // a range that begins behind the media
        (
            (1000, 1000, &[]),
            &[(50, 0, true), (50, 0, true)],
            (2, 10),
            (5, 10),
            None,
            (1000, 1000, &[empty(0)]),
            (0, 0, 0),
        ),
        // up to exactly the end
        (
            (600, 25, &[]),
            &[(1, 0, true), (1, 0, true), (1, 0, true)],
            (1, 25),
            (3, 25),
            None,
            (600, 25, &[media(0, 48)]),
            (2, 1, 0),
        ),
        // from exactly the end on
        (
            (600, 25, &[]),
            &[(1, 0, true), (1, 0, true), (1, 0, true)],
            (3, 25),
            (1, 1),
            None,
            (600, 25, &[empty(0)]),
            (0, 0, 0),
        ),
        // no time
        (
            (600, 25, &[]),
            &[(1, 0, true), (1, 0, true), (1, 0, true)],
            (10, 10),
            (1, 1),
            Some(Code::BadRange),
            (600, 25, &[]),
            (3, 1, 0),
        ),
        // before it begins
        (
            (600, 25, &[]),
            &[(1, 0, true), (1, 0, true), (1, 0, true)],
            (1, 1),
            (1, 2),
            Some(Code::BadRange),
            (600, 25, &[]),
            (3, 1, 0),
        ),
    ];
    check(&rt, rt.alloc(), &rows)?;
    Ok(())
}

#[test]
fn samples_that_stay(rt: HostRuntime) -> Result<(), Fail> {
    let rows: [Row; 9] = [
        // pictures that are composed in another order, from the sync sample on
        (
            (1000, 25, &[media(1, 160)]),
            &[(1, 1, true), (1, 3, false), (1, 0, false), (1, 0, false)],
            (8, 100),
            (12, 100),
            None,
            (1000, 25, &[media(3, 40)]),
            (4, 1, 1),
        ),
        // a sync sample behind the first needed one changes nothing
        (
            (1000, 10, &[]),
            &[(1, 0, true), (1, 0, false), (1, 0, true), (1, 0, false)],
            (1, 10),
            (4, 10),
            None,
            (1000, 10, &[media(1, 300)]),
            (4, 1, 0),
        ),
        // no sync sample at all
        (
            (1000, 10, &[]),
            &[(1, 0, false), (1, 0, false), (1, 0, false), (1, 0, false)],
            (2, 10),
            (3, 10),
            None,
            (1000, 10, &[media(2, 100)]),
            (3, 1, 0),
        ),
        // samples of no time at both ends
        (
            (1000, 10, &[]),
            &[
                (0, 0, true),
                (1, 0, false),
                (0, 0, false),
                (1, 0, false),
                (0, 0, false),
            ],
            (0, 1),
            (2, 10),
            None,
            (1000, 10, &[media(0, 200)]),
            (4, 0, 0),
        ),
        // two segments over the same media
        (
            (1000, 10, &[media(0, 300), media(1, 300)]),
            &[(1, 0, true), (1, 0, true), (1, 0, true), (1, 0, true)],
            (2, 10),
            (5, 10),
            None,
            (1000, 10, &[media(1, 100), media(0, 200)]),
            (2, 1, 0),
        ),
        // segments that jump back
        (
            (1000, 10, &[media(4, 200), media(1, 200)]),
            &[
                (1, 0, true),
                (1, 0, true),
                (1, 0, true),
                (1, 0, true),
                (1, 0, true),
                (1, 0, true),
            ],
            (1, 10),
            (3, 10),
            None,
            (1000, 10, &[media(4, 100), media(0, 100)]),
            (5, 1, 0),
        ),
        // a segment of no time is left out
        (
            (1000, 10, &[media(0, 100), media(3, 0), media(1, 200)]),
            &[(1, 0, true), (1, 0, true), (1, 0, true), (1, 0, true)],
            (1, 10),
            (3, 10),
            None,
            (1000, 10, &[media(0, 200)]),
            (2, 1, 0),
        ),
        // nothing of the media
        (
            (1000, 10, &[empty(500), media(0, 400)]),
            &[(1, 0, true), (1, 0, true), (1, 0, true), (1, 0, true)],
            (1, 10),
            (4, 10),
            None,
            (1000, 10, &[empty(300)]),
            (0, 0, 0),
        ),
        // pictures from half a second on
        (
            (1000, 25, &[]),
            &[
                (1, 0, true),
                (1, 0, false),
                (1, 0, false),
                (1, 0, false),
                (1, 0, false),
                (1, 0, false),
                (1, 0, false),
                (1, 0, false),
                (1, 0, false),
                (1, 0, false),
                (1, 0, true),
                (1, 0, false),
                (1, 0, false),
                (1, 0, false),
                (1, 0, false),
                (1, 0, false),
                (1, 0, false),
                (1, 0, false),
                (1, 0, false),
                (1, 0, false),
                (1, 0, true),
                (1, 0, false),
                (1, 0, false),
                (1, 0, false),
                (1, 0, false),
                (1, 0, false),
                (1, 0, false),
                (1, 0, false),
                (1, 0, false),
                (1, 0, false),
                (1, 0, true),
                (1, 0, false),
                (1, 0, false),
                (1, 0, false),
                (1, 0, false),
                (1, 0, false),
                (1, 0, false),
                (1, 0, false),
                (1, 0, false),
                (1, 0, false),
                (1, 0, true),
                (1, 0, false),
                (1, 0, false),
                (1, 0, false),
                (1, 0, false),
                (1, 0, false),
                (1, 0, false),
                (1, 0, false),
                (1, 0, false),
                (1, 0, false),
            ],
            (5, 10),
            (10, 10),
            None,
            (1000, 50, &[media(5, 500)]),
            (15, 2, 0),
        ),
    ];
    check(&rt, rt.alloc(), &rows)?;
    Ok(())
}

#[test]
fn limits_and_extremes(rt: HostRuntime) -> Result<(), Fail> {
    let rows: [Row; 10] = [
        // a start behind the media
        (
            (1000, 10, &[media(2, 200), media(90, 300)]),
            &[(1, 0, true), (1, 0, true), (1, 0, true), (1, 0, true)],
            (2, 10),
            (4, 10),
            None,
            (1000, 10, &[media(90, 200)]),
            (0, 0, 0),
        ),
        // composed before 0
        (
            (1000, 10, &[media(0, 200)]),
            &[
                (1, -3, true),
                (1, -3, false),
                (1, -3, false),
                (1, -3, false),
                (1, -3, false),
            ],
            (1, 10),
            (2, 10),
            None,
            (1000, 10, &[media(1, 100)]),
            (5, 1, -3),
        ),
        // a track without samples
        (
            (1000, 10, &[media(7, 200)]),
            &[],
            (1, 10),
            (2, 10),
            None,
            (1000, 10, &[media(8, 100)]),
            (0, 0, 0),
        ),
        // a time in the scale of the greatest parts
        (
            (1000, 44_100, &[]),
            &[(1024, 0, true), (1024, 0, true), (1024, 0, true)],
            (1, 1_000_000_000),
            (1, 20),
            Some(Code::ScaleLimit),
            (1000, 44_100, &[]),
            (3, 1024, 0),
        ),
        // a sample that is cut away may last long
        (
            (1, 1, &[]),
            &[(4_294_967_295, 0, true), (1, 0, true), (1, 0, true)],
            (4_294_967_296, 1),
            (8_589_934_593, 2),
            None,
            (2, 1, &[media(0, 1)]),
            (1, 1, 0),
        ),
        // a sample that stays may not
        (
            (1, 1, &[]),
            &[(2_147_483_648, 0, true)],
            (1, 2),
            (1, 1),
            Some(Code::DeltaLimit),
            (1, 1, &[]),
            (1, 2_147_483_648, 0),
        ),
        // offsets that leave 32 bits
        (
            (1000, 1000, &[]),
            &[(1, 4_294_967_295, true), (3000, 0, false)],
            (1, 2000),
            (2, 1),
            Some(Code::OffsetLimit),
            (1000, 1000, &[]),
            (2, 1, 4_294_967_295),
        ),
        // edits that last too long
        (
            (1, 1, &[media(0, 4_611_686_018_427_387_903)]),
            &[(1, 0, true)],
            (1, 2),
            (9_223_372_036_854_775_808, 1),
            Some(Code::DurationLimit),
            (1, 1, &[media(0, 4_611_686_018_427_387_903)]),
            (1, 1, 0),
        ),
        // a start that is too late
        (
            (1, 1, &[media(4_611_686_018_427_387_903, 4)]),
            &[(1, 0, true)],
            (1, 2),
            (2, 1),
            Some(Code::StartLimit),
            (1, 1, &[media(4_611_686_018_427_387_903, 4)]),
            (1, 1, 0),
        ),
        // starts that fall below the limit
        (
            (1, 1, &[media(100, 2), media(2_305_843_009_213_693_952, 2)]),
            &[(100, 0, true), (1, 0, true)],
            (1, 2),
            (7, 2),
            None,
            (2, 2, &[media(1, 3), media(4_611_686_018_427_387_704, 3)]),
            (1, 2, 0),
        ),
    ];
    check(&rt, rt.alloc(), &rows)?;
    Ok(())
}

/// How many ticks of a picture the composition of the one of that number in its group of 250 is later than its
/// decoding: they are composed in the order 0, 4, 2, 1, 3, 8, 6, 5, 7 and so on, the last one last.
fn picture_offset(number: u32, last: u32) -> i64
    ensures low { pos 0 ≤ℤ result }
    ensures high { result ≤ℤ pos 5 }
{
    if number == 0 || number == last {
        return 2;
    }
    match number % 4 {
        1 => 5,
        2 => 2,
        3 => 0,
        _ => 1,
    }
}

/// 1800 pictures of 1001 ticks, of which the first of each 250 is sync, composed in another order.
fn pictures(rt: &impl Abort, alloc: Global, edits: &[Segment]) -> Result<Movie, AllocError> {
    let mut track = film_of(rt, alloc, (1000, 30_000, edits))?;
    for number in 0..1800_u32 {
        let place = number % 250;
        let last = if number < 1750 { 249 } else { 49 };
        let offset = picture_offset(place, last) * 1001;
        track = with_sample(rt, 1000, track, (1001, offset, place == 0))?;
    }
    match Movie::from_scaled(alloc, 1000, track) {
        Ok(movie) => Ok(movie),
        Err(_) => Err(AllocError),
    }
}

/// So many samples of sound.
fn sound(
    rt: &impl Abort,
    alloc: Global,
    count: u32,
    edits: &[Segment],
) -> Result<Movie, AllocError> {
    let mut track = film_of(rt, alloc, (1000, 44_100, edits))?;
    for _ in 0..count {
        track = with_sample(rt, 1000, track, (1024, 0, true))?;
    }
    match Movie::from_scaled(alloc, 1000, track) {
        Ok(movie) => Ok(movie),
        Err(_) => Err(AllocError),
    }
}

/// The movie with the other's track behind its own.
fn both(alloc: Global, mut movie: Movie, other: Movie) -> Result<Movie, AllocError> {
    match add_tracks(alloc, &mut movie, other, Choice::All) {
        Ok(()) => Ok(movie),
        Err(_) => Err(AllocError),
    }
}

#[test]
fn a_film_with_sound(rt: HostRuntime) -> Result<(), Fail> {
    let film = pictures(&rt, rt.alloc(), &[media(2002, 60_060)])?;
    let other = sound(&rt, rt.alloc(), 2584, &[media(1024, 59_977)])?;
    let movie = both(rt.alloc(), film, other)?;
    let Ok(new) = cut_of(&rt, rt.alloc(), movie, (10, 1), (205, 10)) else {
        assert!(rt; false);
        return Ok(());
    };
    let edits = [media(51_752, 10_500)];
    let shown = (1000, 30_000, edits.as_slice());
    assert!(rt; is_track(&new, 0, shown, (366, 1001, 2002)));
    let edits = [media(680, 10_500)];
    let heard = (1000, 44_100, edits.as_slice());
    assert!(rt; is_track(&new, 1, heard, (453, 1024, 0)));
    Ok(())
}

#[test]
fn a_track_that_ends_before_the_range(rt: HostRuntime) -> Result<(), Fail> {
    let samples = [(50, 0, true), (50, 0, true)];
    let film = movie_of(&rt, rt.alloc(), (1000, 1000, &[]), &samples)?;
    let other = sound(&rt, rt.alloc(), 43, &[])?;
    let movie = both(rt.alloc(), film, other)?;
    let Ok(new) = cut_of(&rt, rt.alloc(), movie, (2, 10), (5, 10)) else {
        assert!(rt; false);
        return Ok(());
    };
    let edits = [empty(0)];
    let shown = (1000, 1000, edits.as_slice());
    assert!(rt; is_track(&new, 0, shown, (0, 0, 0)));
    let edits = [media(628, 300)];
    let heard = (1000, 44_100, edits.as_slice());
    assert!(rt; is_track(&new, 1, heard, (14, 1024, 0)));
    Ok(())
}

#[test]
fn a_movie_without_tracks_stays_so(rt: HostRuntime) -> Result<(), Fail> {
    let movie = Movie::new(rt.alloc());
    let Ok(new) = cut_of(&rt, rt.alloc(), movie, (1, 1), (20, 10)) else {
        assert!(rt; false);
        return Ok(());
    };
    assert!(rt; new.tracks().is_empty());
    assert_eq!(rt; new.scale(), 1000);
    Ok(())
}
