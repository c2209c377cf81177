//! The tracks of a movie, one after another (ISO/IEC 14496-12, 8.3.1).

ghost use Rattle.std.specs.Prelude.{[], map};
ghost use Rattle.mp_ports.specs.Checks.{unless};
ghost use Rattle.mp_ports.specs.Gives.{Gives, refusal};
ghost use Rattle.mp_boxes.specs.Boxes.{IsContainer, body_place};
ghost use Rattle.mp_movie.specs.Present.{traks_in};
ghost use Rattle.mp_movie.specs.Tracks.{tracks_fault};
ghost use Rattle.mp_read.specs.Part.{IsPart, part_of};
ghost use Rattle.mp_read.specs.Track.{tables_of};

use crate::moov::Moov;
use crate::track::{TrackTables, read_trak};
use mp_boxes::{ChildBox, next_child};
use mp_ports::Fail;
use std::alloc::Global;

/// The track of each box `trak` in a movie box, in a file of so many bytes: each as `read_trak` behind those
/// before it.
#[tactic(auto, unfolding(mp_movie::specs::Children::children))]
pub fn read_tracks(
    alloc: Global,
    moov: &Moov<'_>,
    whole: ChildBox,
    file_size: u64,
) -> Result<Vec<TrackTables>, Fail>
    requires part { IsPart moov.now whole }
    requires boxes { let box = part_of moov.now whole in IsContainer (body_place box) box.body }
    ensures { let traks = traks_in (part_of moov.now whole) in
        Gives refusal (λ tracks. tracks.items) result (unless (tracks_fault file_size [] traks) (map tables_of traks)) }
{
    let body = moov.body(whole);
    let base = moov.body_place(whole);
    let mut tracks = Vec::new(alloc);
    let mut samples = 0;
    let mut at = 0;
    while let Some(child) = next_child(body, at, base, *b"trak") {
        let trak = moov.headed(whole, child);
        let track = read_trak(alloc, moov, trak, &tracks, samples, file_size)?;
        samples += u64::from(track.sample_count());
        tracks.push(track)?;
        at = child.place + child.len;
    }
    Ok(tracks)
}
