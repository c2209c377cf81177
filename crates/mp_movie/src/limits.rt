//! The limits of a movie, in the order of their codes.

ghost use Rattle.std.specs.Prelude.{◌≡◌};
ghost use Rattle.mp_edits.specs.EditBox.{segments_in};
ghost use Rattle.mp_ports.specs.Checks.{first_code};
ghost use Rattle.mp_times.specs.Written.{is_unsigned};
ghost use Rattle.mp_movie.specs.PartsFit.{first_limit, is_long, is_signed, is_wide, passes, some_passes};

use crate::movie::MovieParts;
use crate::sums::count_of;
use crate::track::TrackParts;
use mp_columns::{Col, Column, Cursor, MOST_ITEMS};
use mp_edits::{capped_total, some_start_late};
use mp_ports::Code;
use mp_timeline::Segment;

/// The most tracks of a movie.
const MOST_TRACKS: usize = 64;
/// The most entries of a track.
const MOST_ENTRIES: usize = 255;
/// The most segments of an edit list.
const MOST_SEGMENTS: usize = 65_535;
/// The least tick that an edit list doesn't reach.
const TICKS_END: u64 = 1 << 62;

/// The first limit that the movie passes, in the order of the codes over all tracks; `None` where it fits.
///
/// `DeltaLimit`, `OffsetLimit`, `DurationLimit`, `StartLimit`, `SizeLimit`, `SampleLimit`, `TrackLimit`,
/// `EntryLimit`, `SegmentLimit`. It takes no memory.
pub fn check_fits(movie: &MovieParts) -> Option<Code>
    ensures { result ≡ first_limit movie.now }
{
    let tracks = &movie.tracks;
    first_code(&[
        some_passes(tracks, Code::DeltaLimit),
        some_passes(tracks, Code::OffsetLimit),
        some_passes(tracks, Code::DurationLimit),
        some_passes(tracks, Code::StartLimit),
        some_passes(tracks, Code::SizeLimit),
        (count_of(tracks) > u64::from(MOST_ITEMS), Code::SampleLimit),
        (tracks.len() > MOST_TRACKS, Code::TrackLimit),
        some_passes(tracks, Code::EntryLimit),
        some_passes(tracks, Code::SegmentLimit),
    ])
}

/// The code of the first test that holds.
fn first_code(checks: &[(bool, Code)]) -> Option<Code>
    ensures { result ≡ first_code checks.now }
{
    for check in checks {
        if check.0 {
            return Some(check.1);
        }
    }
    None
}

/// Whether one of the tracks passes the limit of that code.
fn some_passes(tracks: &[TrackParts], code: Code) -> (bool, Code)
    ensures { result ≡ some_passes tracks.now code }
{
    for track in tracks {
        if passes(code, track) {
            return (true, code);
        }
    }
    (false, code)
}

/// Whether the track passes the limit of that code, where that is one of tracks.
fn passes(code: Code, track: &TrackParts) -> bool
    ensures { result ≡ passes code track.now }
{
    match code {
        Code::DeltaLimit => is_long(&track.deltas),
        Code::OffsetLimit => is_wide(&track.offsets),
        Code::DurationLimit => capped_total(segments_in(track)) >= TICKS_END,
        Code::StartLimit => some_start_late(segments_in(track)),
        Code::SizeLimit => is_long(&track.sizes),
        Code::EntryLimit => track.entries.len() > MOST_ENTRIES,
        Code::SegmentLimit => segments_in(track).len() > MOST_SEGMENTS,
        _ => false,
    }
}

/// The segments of the track's edits.
fn segments_in(track: &TrackParts) -> &[Segment]
    ensures { result.now ≡ segments_in track.now.edits }
{
    match &track.edits {
        None => &[],
        Some(edits) => edits,
    }
}

/// The greatest number of the column is above 32 bits.
fn is_long(column: &Col) -> bool
    ensures { result ≡ is_long column.now }
{
    column.largest() > u64::from(u32::MAX)
}

/// The numbers fit 32 bits neither all without a sign nor all with one. It reads each run once.
fn is_wide(offsets: &Col) -> bool
    ensures { result ≡ is_wide offsets.now }
{
    let mut unsigned = true;
    let mut signed = true;
    let mut cursor = Cursor::at(0);
    while let Some(run) = offsets.next_run(&mut cursor) {
        unsigned &= is_unsigned(run.value);
        signed &= is_signed(run.value);
    }
    !unsigned && !signed
}

/// An offset that 32 bits without a sign hold.
fn is_unsigned(offset: i64) -> bool
    ensures { result ≡ is_unsigned offset }
{
    u32::try_from(offset).is_ok()
}

/// An offset that 32 bits with a sign hold.
fn is_signed(offset: i64) -> bool
    ensures { result ≡ is_signed offset }
{
    i32::try_from(offset).is_ok()
}
