// The texts of small movies, each written out by hand.
use crate::put::entry_type;
use crate::row::Row;
use crate::{info_text, timeline, timeline_json, timeline_text, values};
use mp_movie::{Movie, Track};
use mp_timeline::{Segment, TrackHead};
use std::alloc::Global;
use std::test::Fail;

/// A sample entry: a whole box with a data reference index.
const ENTRY: &[u8] = b"\0\0\0\x10te\"t\0\0\0\0\0\0\0\x01";

const FIRST: Row = Row {
    size: 3,
    decode: 0,
    dur: 3000,
    comp: -10,
    sync: true,
    entry: 1,
};

const SECOND: Row = Row {
    size: 0,
    decode: 3000,
    dur: 0,
    comp: 3020,
    sync: false,
    entry: 2,
};

#[test]
fn each_sample_has_its_line(rt: HostRuntime) -> Result<(), Fail> {
    let mut out = Vec::new(rt.alloc());
    timeline::put_row(&mut out, 1, FIRST)?;
    timeline::put_row(&mut out, 2, SECOND)?;
    assert_eq!(rt;
        out.as_slice(),
        b"sample 1 size 3 decode 0 duration 3000 composition -10 sync entry 1\n\
          sample 2 size 0 decode 3000 duration 0 composition 3020 plain entry 2\n"
            .as_slice()
    );
    Ok(())
}

#[test]
fn each_sample_is_a_list(rt: HostRuntime) -> Result<(), Fail> {
    let mut out = Vec::new(rt.alloc());
    values::put_row(&mut out, FIRST)?;
    values::put_row(&mut out, SECOND)?;
    assert_eq!(rt;
        out.as_slice(),
        b"[3,0,3000,-10,1,1][0,3000,0,3020,0,2]".as_slice()
    );
    Ok(())
}

#[test]
fn an_entry_has_its_type(rt: HostRuntime) {
    assert_eq!(rt; entry_type(ENTRY), *b"te\"t");
}

/// A movie of one track with two segments and no samples.
fn edited_movie(alloc: Global) -> Result<Movie, Fail> {
    let head = TrackHead::plain(alloc, *b"so\0n")?;
    let mut track = Track::new(alloc, 7, head, 90_000, Vec::new(alloc));
    let mut edits = Vec::new(alloc);
    edits.push(Segment::Empty { dur: 5 })?;
    edits.push(Segment::Media { start: 9, dur: 40 })?;
    track.edits = Some(edits);
    match Movie::from_track(alloc, track) {
        Ok(movie) => Ok(movie),
        Err((fail, _)) => Err(fail.into()),
    }
}

#[test]
fn a_movie_is_told_of(rt: HostRuntime) -> Result<(), Fail> {
    let alloc = rt.alloc();
    let movie = edited_movie(alloc)?;
    let text = timeline_text(alloc, &movie)?;
    assert_eq!(rt;
        text.as_slice(),
        b"movie scale 1000 duration 45 tracks 1\n\
          track 7 handler so.n entry none scale 90000 \
          samples 0 sync 0 bytes 0 duration 0 language und enabled edits 2\n\
          edit empty 5\nedit media 9 40\n"
            .as_slice()
    );
    Ok(())
}

#[test]
fn a_movie_is_an_object(rt: HostRuntime) -> Result<(), Fail> {
    let alloc = rt.alloc();
    let movie = edited_movie(alloc)?;
    let text = timeline_json(alloc, &movie)?;
    assert_eq!(rt;
        text.as_slice(),
        b"{\"duration\":45,\"scale\":1000,\"tracks\":[{\"edits\":[{\"duration\":5,\"start\":null},\
          {\"duration\":40,\"start\":9}],\"enabled\":true,\"entries\":[],\"handler\":\"so.n\",\
          \"language\":\"und\",\"number\":7,\"samples\":[],\"scale\":90000}]}\n"
            .as_slice()
    );
    Ok(())
}

/// A track without samples, entries and edits, disabled, of a handler and a language that aren't printable.
fn bare_movie(alloc: Global) -> Result<Movie, Fail> {
    let mut head = TrackHead::plain(alloc, *b"\x1f\x7e\x7f\"")?;
    head.flags = 6;
    head.language = 0x8000 + 26 * 1024 + 27 * 32;
    let track = Track::new(alloc, 4_294_967_295, head, 1, Vec::new(alloc));
    match Movie::from_track(alloc, track) {
        Ok(movie) => Ok(movie),
        Err((fail, _)) => Err(fail.into()),
    }
}

#[test]
fn nothing_is_told_of_no_tracks(rt: HostRuntime) -> Result<(), Fail> {
    let alloc = rt.alloc();
    let movie = Movie::new(alloc);
    let line = b"movie scale 1000 duration 0 tracks 0\n".as_slice();
    assert_eq!(rt; info_text(alloc, &movie)?.as_slice(), line);
    assert_eq!(rt; timeline_text(alloc, &movie)?.as_slice(), line);
    assert_eq!(rt;
        timeline_json(alloc, &movie)?.as_slice(),
        b"{\"duration\":0,\"scale\":1000,\"tracks\":[]}\n".as_slice()
    );
    Ok(())
}

#[test]
fn a_track_may_have_nothing(rt: HostRuntime) -> Result<(), Fail> {
    let alloc = rt.alloc();
    let movie = bare_movie(alloc)?;
    let lines = b"movie scale 1000 duration 0 tracks 1\n\
          track 4294967295 handler .~.\" entry none scale 1 \
          samples 0 sync 0 bytes 0 duration 0 language z.. disabled edits none\n"
        .as_slice();
    assert_eq!(rt; info_text(alloc, &movie)?.as_slice(), lines);
    assert_eq!(rt; timeline_text(alloc, &movie)?.as_slice(), lines);
    assert_eq!(rt;
        timeline_json(alloc, &movie)?.as_slice(),
        b"{\"duration\":0,\"scale\":1000,\"tracks\":[{\"edits\":null,\"enabled\":false,\"entries\":[],\
          \"handler\":\".~.\\\"\",\"language\":\"z..\",\"number\":4294967295,\"samples\":[],\
          \"scale\":1}]}\n"
            .as_slice()
    );
    Ok(())
}

#[test]
fn large_numbers_stand_in_full(rt: HostRuntime) -> Result<(), Fail> {
    let alloc = rt.alloc();
    let head = TrackHead::plain(alloc, *b"so\\n")?;
    let mut track = Track::new(alloc, 1, head, 90_000, Vec::new(alloc));
    let mut edits = Vec::new(alloc);
    edits.push(Segment::Media {
        start: 4_611_686_018_427_387_903,
        dur: 9_007_199_254_740_993,
    })?;
    track.edits = Some(edits);
    let movie = match Movie::from_track(alloc, track) {
        Ok(movie) => movie,
        Err((fail, _)) => return Err(fail.into()),
    };
    assert_eq!(rt;
        timeline_json(alloc, &movie)?.as_slice(),
        b"{\"duration\":9007199254740993,\"scale\":1000,\"tracks\":[{\"edits\":[{\"duration\":9007199254740993,\
          \"start\":4611686018427387903}],\"enabled\":true,\"entries\":[],\"handler\":\"so\\\\n\",\
          \"language\":\"und\",\"number\":1,\"samples\":[],\"scale\":90000}]}\n"
            .as_slice()
    );
    Ok(())
}
