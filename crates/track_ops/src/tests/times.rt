//! Times that are shifted and told in other scales: each row worked out by hand, in fractions of a second.

use crate::{delay, set_movie_scale, set_track_scale};
use mp_movie::{Movie, Track};
use mp_ports::{Bad, Code, Fail as Refusal};
use mp_timeline::{Segment, TrackHead};
use std::alloc::{AllocError, Global};
use std::process::Abort;
use std::test::Fail;

const MOST: u32 = 4_294_967_295;

const LATE: u64 = 1 << 62;

/// What is asked of a movie and its track 1.
#[derive(Clone, Copy, Debug)]
enum Command {
    Delay(i32),
    TrackScale(u32),
    MovieScale(u32),
}

/// A movie: its scale, that of its track, and the track's edits.
type Film<'a> = (u32, u32, &'a [Segment]);

const fn empty(dur: u64) -> Segment {
    Segment::Empty { dur }
}

const fn media(start: u64, dur: u64) -> Segment {
    Segment::Media { start, dur }
}

fn movie_of(rt: &impl Abort, alloc: Global, film: Film) -> Result<Movie, AllocError> {
    assert!(rt; film.0 > 0 && film.1 > 0 && !film.2.is_empty());
    let head = TrackHead::plain(alloc, *b"vide")?;
    let mut track = Track::new(alloc, 1, head, film.1, Vec::new(alloc));
    track.edits = Some(Vec::from_slice(alloc, film.2)?);
    match Movie::from_scaled(alloc, film.0, track) {
        Ok(movie) => Ok(movie),
        Err(_) => Err(AllocError),
    }
}

fn run(rt: &impl Abort, alloc: Global, movie: &mut Movie, command: Command) -> Result<(), Refusal> {
    match command {
        Command::Delay(ms) => delay(alloc, movie, 1, ms),
        Command::TrackScale(scale) => {
            assert!(rt; scale > 0);
            set_track_scale(movie, 1, scale).map_err(Refusal::Bad)
        }
        Command::MovieScale(scale) => {
            assert!(rt; scale > 0);
            set_movie_scale(movie, scale).map_err(Refusal::Bad)
        }
    }
}

fn is_film(movie: &Movie, film: Film) -> bool {
    let Some(track) = movie.tracks().first() else {
        return false;
    };
    let Some(edits) = &track.edits else {
        return false;
    };
    movie.scale() == film.0 && track.scale == film.1 && edits.as_slice() == film.2
}

/// Whether the command answers so, and what it leaves is the wanted film.
fn is_as_wanted(
    rt: &impl Abort,
    alloc: Global,
    film: Film,
    command: Command,
    code: Option<Code>,
    wanted: Film,
) -> Result<bool, AllocError> {
    let mut movie = movie_of(rt, alloc, film)?;
    let is_so = match (run(rt, alloc, &mut movie, command), code) {
        (Ok(()), None) => true,
        (Err(Refusal::Bad(bad)), Some(code)) => bad == Bad::at(code, 0),
        _ => false,
    };
    Ok(is_so && is_film(&movie, wanted))
}

/// A film, a command, the refusal, and the film that is left.
type Row<'a> = (Film<'a>, Command, Option<Code>, Film<'a>);

fn check(rt: &impl Abort, alloc: Global, rows: &[Row]) -> Result<(), AllocError> {
    for (film, command, code, wanted) in rows {
        let is_so = is_as_wanted(rt, alloc, *film, *command, *code, *wanted)?;
        assert!(rt; is_so, "{command:?}");
    }
    Ok(())
}

#[test]
fn a_track_is_shown_later_or_earlier(rt: HostRuntime) -> Result<(), Fail> {
    let rows: [Row; 10] = [
        // a tenth of a second, but for its last millisecond, and all of it
        (
            (1000, 1000, &[media(0, 100)]),
            Command::Delay(-99),
            None,
            (1000, 1000, &[media(99, 1)]),
        ),
        (
            (1000, 1000, &[media(0, 100)]),
            Command::Delay(-100),
            Some(Code::DelayPastEnd),
            (1000, 1000, &[media(0, 100)]),
        ),
        (
            (1000, 1000, &[media(0, 100)]),
            Command::Delay(40),
            None,
            (1000, 1000, &[empty(40), media(0, 100)]),
        ),
        (
            (1000, 1000, &[media(0, 100)]),
            Command::Delay(0),
            None,
            (1000, 1000, &[media(0, 100)]),
        ),
        (
            (1000, 1000, &[media(0, 100)]),
            Command::Delay(2_147_483_647),
            None,
            (1000, 1000, &[empty(2_147_483_647), media(0, 100)]),
        ),
        (
            (1000, 1000, &[media(0, 100)]),
            Command::Delay(-2_147_483_647),
            Some(Code::DelayPastEnd),
            (1000, 1000, &[media(0, 100)]),
        ),
        (
            (1000, 1000, &[media(0, 2_147_483_648)]),
            Command::Delay(-2_147_483_647),
            None,
            (1000, 1000, &[media(2_147_483_647, 1)]),
        ),
        // 44.1 ticks of the track and 599.4 of the movie: both scales grow
        (
            (600, 44_100, &[media(0, 600)]),
            Command::Delay(-1),
            None,
            (3000, 441_000, &[media(441, 2997)]),
        ),
        // segments of no time stay behind an empty one, and go where a delay is below 0
        (
            (1000, 1000, &[empty(10), media(5, 20), media(7, 0)]),
            Command::Delay(-15),
            None,
            (1000, 1000, &[media(10, 15)]),
        ),
        (
            (1000, 1000, &[empty(0), media(3, 0)]),
            Command::Delay(5),
            None,
            (1000, 1000, &[empty(5), empty(0), media(3, 0)]),
        ),
    ];
    check(&rt, rt.alloc(), &rows)?;
    Ok(())
}

#[test]
fn delays_end_at_the_limits(rt: HostRuntime) -> Result<(), Fail> {
    let rows: [Row; 6] = [
        // a millisecond is 4,294,967.295 ticks
        (
            (1000, MOST, &[media(0, 10)]),
            Command::Delay(-1),
            Some(Code::ScaleLimit),
            (1000, MOST, &[media(0, 10)]),
        ),
        (
            (MOST, 1000, &[media(0, 10)]),
            Command::Delay(1),
            Some(Code::ScaleLimit),
            (MOST, 1000, &[media(0, 10)]),
        ),
        (
            (1000, MOST, &[media(0, 10)]),
            Command::Delay(1),
            None,
            (1000, MOST, &[empty(1), media(0, 10)]),
        ),
        (
            (1000, 1000, &[media(LATE - 1, 10)]),
            Command::Delay(-1),
            Some(Code::StartLimit),
            (1000, 1000, &[media(LATE - 1, 10)]),
        ),
        (
            (1000, 1000, &[media(LATE - 2, 10)]),
            Command::Delay(-1),
            None,
            (1000, 1000, &[media(LATE - 1, 9)]),
        ),
        (
            (1000, 1000, &[media(0, LATE - 1)]),
            Command::Delay(1),
            Some(Code::DurationLimit),
            (1000, 1000, &[media(0, LATE - 1)]),
        ),
    ];
    check(&rt, rt.alloc(), &rows)?;
    Ok(())
}

#[test]
fn scales_are_set_where_all_is_whole(rt: HostRuntime) -> Result<(), Fail> {
    let rows: [Row; 8] = [
        (
            (1000, 1000, &[media(1000, 1000)]),
            Command::MovieScale(600),
            None,
            (600, 1000, &[media(1000, 600)]),
        ),
        (
            (1000, 1000, &[media(1000, 1000)]),
            Command::MovieScale(MOST),
            None,
            (MOST, 1000, &[media(1000, 4_294_967_295)]),
        ),
        (
            (1000, 1000, &[media(0, 100)]),
            Command::MovieScale(MOST),
            Some(Code::NotWhole),
            (1000, 1000, &[media(0, 100)]),
        ),
        (
            (1000, 1000, &[media(0, LATE / 2)]),
            Command::MovieScale(2000),
            Some(Code::DurationLimit),
            (1000, 1000, &[media(0, LATE / 2)]),
        ),
        (
            (1000, 1000, &[media(1000, 1000)]),
            Command::TrackScale(1),
            None,
            (1000, 1, &[media(1, 1000)]),
        ),
        (
            (1000, 1000, &[media(1000, 1000)]),
            Command::TrackScale(MOST),
            None,
            (1000, MOST, &[media(4_294_967_295, 1000)]),
        ),
        (
            (1000, 1000, &[media(1, 100)]),
            Command::TrackScale(MOST),
            Some(Code::NotWhole),
            (1000, 1000, &[media(1, 100)]),
        ),
        (
            (1000, 1000, &[media(LATE / 2, 100)]),
            Command::TrackScale(2000),
            Some(Code::StartLimit),
            (1000, 1000, &[media(LATE / 2, 100)]),
        ),
    ];
    check(&rt, rt.alloc(), &rows)?;
    Ok(())
}

/// A movie of a track without samples and edits.
fn bare_movie(alloc: Global) -> Result<Movie, AllocError> {
    let head = TrackHead::plain(alloc, *b"vide")?;
    let track = Track::new(alloc, 1, head, 90_000, Vec::new(alloc));
    match Movie::from_track(alloc, track) {
        Ok(movie) => Ok(movie),
        Err(_) => Err(AllocError),
    }
}

#[test]
fn no_delay_makes_no_edit_list(rt: HostRuntime) -> Result<(), Fail> {
    let mut movie = bare_movie(rt.alloc())?;
    assert!(rt; delay(rt.alloc(), &mut movie, 1, 0).is_ok());
    assert!(rt; movie.tracks().iter().all(|track| track.edits.is_none()));
    assert!(rt; delay(rt.alloc(), &mut movie, 2, 0).is_err());
    assert!(rt; delay(rt.alloc(), &mut movie, 1, -1).is_err());
    assert!(rt; delay(rt.alloc(), &mut movie, 1, 40).is_ok());
    assert!(rt; is_film(&movie, (1000, 90_000, &[empty(40)])));
    Ok(())
}

/// So many segments of one tick.
fn equal_segments(alloc: Global, count: usize) -> Result<Vec<Segment>, AllocError> {
    vec![in alloc; empty(1); count]
}

#[test]
fn an_edit_list_has_65535_segments(rt: HostRuntime) -> Result<(), Fail> {
    let full = equal_segments(rt.alloc(), 65_535)?;
    let less = equal_segments(rt.alloc(), 65_534)?;
    let full: Film = (1000, 1000, &full);
    let less: Film = (1000, 1000, &less);
    let refused = (full, Command::Delay(1), Some(Code::SegmentLimit), full);
    check(
        &rt,
        rt.alloc(),
        &[refused, (less, Command::Delay(1), None, full)],
    )?;
    Ok(())
}
