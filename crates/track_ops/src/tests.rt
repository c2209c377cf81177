//! Numbers and fields of heads, worked out by hand.

mod times;

use crate::heads::{HeadChange, change_all};
use crate::numbers::all_numbers;
use crate::removal::keep_others;
use crate::set_scale::fault_of;
use crate::{Choice, add_tracks, remove, set_movie_scale, set_track_scale};
use mp_movie::{Movie, Track};
use mp_ports::{Bad, Code, Fail as Refusal, NoMemory};
use mp_timeline::TrackHead;
use std::alloc::Global;
use std::test::Fail;

fn tracks(alloc: Global, numbers: &[u32]) -> Result<Vec<Track>, NoMemory> {
    let mut tracks = Vec::new(alloc);
    for number in numbers {
        let head = TrackHead::plain(alloc, *b"vide").map_err(|_| NoMemory)?;
        let track = Track::new(alloc, *number, head, 1000, Vec::new(alloc));
        tracks.push(track).map_err(|_| NoMemory)?;
    }
    Ok(tracks)
}

#[test]
fn a_movie_without_tracks_has_none_to_remove(rt: HostRuntime) -> Result<(), Fail> {
    let mut movie = Movie::new(rt.alloc());
    let refused = Err(Bad::at(Code::NoTrack, 0));
    assert_eq!(rt; remove(&mut movie, 1), refused);
    Ok(())
}

#[test]
fn others_are_kept_in_order(rt: HostRuntime) -> Result<(), Fail> {
    let rows: [([u32; 3], u32, &[u32]); 4] = [
        ([1, 2, 3], 2, &[1, 3]),
        ([3, 1, 2], 3, &[1, 2]),
        ([7, 8, 4_294_967_295], 4_294_967_295, &[7, 8]),
        ([1, 2, 3], 4, &[1, 2, 3]),
    ];
    for (numbers, number, wanted) in rows {
        let mut tracks = tracks(rt.alloc(), &numbers)?;
        keep_others(&mut tracks, number);
        let left = tracks.iter().map(|track| track.number);
        assert!(rt;
            left.eq(wanted.iter().copied()),
            "{numbers:?} without {number}"
        );
    }
    Ok(())
}

#[test]
fn one_field_of_one_head_changes(rt: HostRuntime) -> Result<(), Fail> {
    let mut tracks = tracks(rt.alloc(), &[1, 2])?;
    change_all(&mut tracks, 2, HeadChange::Enabled(false));
    change_all(&mut tracks, 2, HeadChange::Language(0x10B5));
    let fields: [(u32, u16); 2] = [(3, 0x55C4), (2, 0x10B5)];
    for (track, (flags, language)) in tracks.iter().zip(fields) {
        assert_eq!(rt; track.head.flags, flags);
        assert_eq!(rt; track.head.language, language);
    }
    Ok(())
}

#[test]
fn added_tracks_get_free_numbers(rt: HostRuntime) -> Result<(), Fail> {
    let rows: [(&[u32], &[u32], Choice, &[u32]); 5] = [
        (&[1], &[1, 2], Choice::All, &[1, 2, 3]),
        (&[2], &[1, 2], Choice::Number(1), &[2, 1]),
        (&[], &[5, 3], Choice::All, &[5, 3]),
        (
            &[4_294_967_295],
            &[1, 2],
            Choice::Video,
            &[4_294_967_295, 1, 2],
        ),
        (&[1], &[1, 2], Choice::Audio, &[1]),
    ];
    for (own, others, choice, wanted) in rows {
        let own = tracks(rt.alloc(), own)?;
        let others = tracks(rt.alloc(), others)?;
        match all_numbers(rt.alloc(), &own, &others, choice) {
            Ok(numbers) => {
                let found = numbers.iter().copied();
                assert!(rt; found.eq(wanted.iter().copied()), "{choice:?}");
            }
            Err(_) => assert!(rt; false, "{choice:?}"),
        }
    }
    Ok(())
}

#[test]
fn no_number_is_above_the_greatest(rt: HostRuntime) -> Result<(), Fail> {
    let own = tracks(rt.alloc(), &[4_294_967_295])?;
    let others = tracks(rt.alloc(), &[4_294_967_295])?;
    match all_numbers(rt.alloc(), &own, &others, Choice::All) {
        Err(Refusal::Bad(bad)) => assert_eq!(rt; bad, Bad::at(Code::IdLimit, 0)),
        _ => assert!(rt; false),
    }
    Ok(())
}

#[test]
fn no_track_of_an_empty_movie_is_chosen(rt: HostRuntime) -> Result<(), Fail> {
    let mut movie = Movie::new(rt.alloc());
    let other = Movie::new(rt.alloc());
    match add_tracks(rt.alloc(), &mut movie, other, Choice::All) {
        Err((Refusal::Bad(bad), _)) => assert_eq!(rt; bad, Bad::at(Code::NoTrack, 0)),
        _ => assert!(rt; false),
    }
    Ok(())
}

#[test]
fn scales_of_an_empty_movie(rt: HostRuntime) -> Result<(), Fail> {
    let mut movie = Movie::new(rt.alloc());
    let refused = Err(Bad::at(Code::NoTrack, 0));
    assert_eq!(rt; set_track_scale(&mut movie, 1, 600), refused);
    assert_eq!(rt; set_movie_scale(&mut movie, 600), Ok(()));
    assert_eq!(rt; movie.scale(), 600);
    Ok(())
}

/// The scale of a track, the duration and the offset of its one sample, and a scale that it gets.
type Row = (u32, u32, i64, u32, Option<Code>);

#[test]
fn scales_that_a_track_gets(rt: HostRuntime) -> Result<(), Fail> {
    let rows: [Row; 6] = [
        (44100, 1024, 0, 88200, None),
        (44100, 1024, 0, 1000, Some(Code::NotWhole)),
        (1000, 1000, 1, 1, Some(Code::NotWhole)),
        (1000, 1000, -1000, 1, None),
        (1, 2, 0, 4_294_967_295, Some(Code::DeltaLimit)),
        (1, 1, -1, 4_294_967_295, Some(Code::OffsetLimit)),
    ];
    for (scale, delta, offset, new, wanted) in rows {
        let head = TrackHead::plain(rt.alloc(), *b"vide")?;
        let mut track = Track::new(rt.alloc(), 1, head, scale, Vec::new(rt.alloc()));
        track.push_sample(delta, offset, true, 1, &[])?;
        assert!(rt; track.scale > 0);
        assert_eq!(rt; fault_of(&track, new), wanted);
    }
    Ok(())
}
