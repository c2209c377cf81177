//! What a track box says of its track in front of its samples (ISO/IEC 14496-12, 8.3 and 8.4).

ghost use Rattle.std.specs.Prelude.{◌≡◌, ◌==◌, List, IfOk, IfSome, IsOk, OnOk, Some, map, option_map};
ghost use Rattle.std.specs.List.{list_any};
ghost use Rattle.mp_ports.specs.Checks.{Checks, fault_at, unless};
ghost use Rattle.mp_ports.specs.Gives.{Gives, refusal};
ghost use Rattle.mp_boxes.specs.Boxes.{Box};
ghost use Rattle.mp_movie.specs.Children.{children};
ghost use Rattle.mp_movie.specs.Entries.{local_references, references_fault};
ghost use Rattle.mp_read.specs.Header.{
  header_fault,
  header_in,
  information_fault,
  information_in,
  media_fault,
  media_in,
  number_fault,
};
ghost use Rattle.mp_read.specs.Part.{IsPart, part_of};
ghost use Rattle.mp_read.specs.Track.{tables_of};

use crate::moov::Moov;
use crate::track::TrackTables;
use mp_boxes::ChildBox;
use mp_entries::read_dref;
use mp_headers::{Mdhd, Tkhd, read_hdlr, read_mdhd, read_tkhd};
use mp_ports::{Bad, Code, Fail};
use std::alloc::Global;

/// The track header, and the boxes beside it.
#[derive(Clone, Copy)]
pub(crate) struct TrackParts {
    pub(crate) header: Tkhd,
    pub(crate) media: ChildBox,
    pub(crate) edits: Option<ChildBox>,
}

/// The media header, the handler, and the boxes beside them.
#[derive(Clone, Copy)]
pub(crate) struct MediaParts {
    pub(crate) header: Mdhd,
    pub(crate) handler: [u8; 4],
    pub(crate) hdlr: ChildBox,
    pub(crate) information: ChildBox,
}

/// For each data reference whether its data is in this file, and the sample table.
#[derive(Drop)]
pub(crate) struct InformationParts {
    pub(crate) local: Vec<bool>,
    pub(crate) table: ChildBox,
}

/// Whether one of the tracks has this number.
fn has_number(tracks: &[TrackTables], number: u32) -> bool
    ensures { result ≡ list_any (λ track. track.number == number) tracks.now }
{
    for track in tracks {
        if track.number == number {
            return true;
        }
    }
    false
}

/// Whether a number is that of a track, and of none of those before it.
fn check_number(number: u32, earlier: &[TrackTables], place: u64) -> Result<(), Bad>
    ensures { (before : List Box) → earlier.now ≡ map tables_of before → Checks result
        (fault_at place (number_fault before number)) }
{
    if number == 0 {
        return Err(Bad::at(Code::TrackId, place));
    }
    if has_number(earlier, number) {
        return Err(Bad::at(Code::TrackId, place));
    }
    Ok(())
}

/// The track header of the box `trak`, behind these tracks.
///
/// `BoxCut` and `BoxSize` in `trak`; `BoxMissing` and `BoxTwice` of `tkhd` and `mdia`, `BoxTwice` of `edts`; then at
/// `tkhd` as `read_tkhd`, and `TrackId` where its number is 0 or that of an earlier track.
#[tactic(auto, unfolding(crate::specs::Header::header_fault), using(crate::proofs::Placed::fields_anywhere))]
pub(crate) fn read_header(
    moov: &Moov<'_>,
    trak: ChildBox,
    earlier: &[TrackTables],
) -> Result<TrackParts, Bad>
    requires { IsPart moov.now trak }
    ensures header { let box = part_of moov.now trak in (before : List Box) → earlier.now ≡ map tables_of before
        → Gives Some (λ parts. (
          parts.header,
          part_of moov.now parts.media,
          option_map (part_of moov.now) parts.edits,
        )) result
        (unless (header_fault before box) (header_in box)) }
    ensures whole { OnOk result (IsOk (children (part_of moov.now trak))) }
    ensures media { IfOk result (λ parts. IsPart moov.now parts.media) }
    ensures edits { IfOk result (λ parts. IfSome parts.edits (IsPart moov.now)) }
{
    moov.check_boxes(trak)?;
    let tkhd = moov.one(trak, *b"tkhd")?;
    let media = moov.one(trak, *b"mdia")?;
    let edits = moov.at_most_one(trak, *b"edts")?;
    let header = read_tkhd(moov.body(tkhd), tkhd.span.place)?;
    check_number(header.number, earlier, tkhd.span.place)?;
    Ok(TrackParts {
        header,
        media,
        edits,
    })
}

/// The media header and the handler in the box `mdia`.
///
/// `BoxCut` and `BoxSize` in `mdia`; `BoxMissing` and `BoxTwice` of `mdhd`, `hdlr` and `minf`; then as
/// `read_mdhd`, and as `read_hdlr`.
#[tactic(auto, unfolding(crate::specs::Header::media_fault), using(crate::proofs::Placed::fields_anywhere))]
pub(crate) fn read_media(moov: &Moov<'_>, mdia: ChildBox) -> Result<MediaParts, Bad>
    requires { IsPart moov.now mdia }
    ensures media { let box = part_of moov.now mdia in
        Gives Some (λ parts. (
          parts.header,
          parts.handler,
          part_of moov.now parts.hdlr,
          part_of moov.now parts.information,
        )) result
        (unless (media_fault box) (media_in box)) }
    ensures hdlr { IfOk result (λ parts. IsPart moov.now parts.hdlr) }
    ensures information { IfOk result (λ parts. IsPart moov.now parts.information) }
{
    moov.check_boxes(mdia)?;
    let mdhd = moov.one(mdia, *b"mdhd")?;
    let hdlr = moov.one(mdia, *b"hdlr")?;
    let information = moov.one(mdia, *b"minf")?;
    let header = read_mdhd(moov.body(mdhd), mdhd.span.place)?;
    let handler = read_hdlr(moov.body(hdlr), hdlr.span.place)?;
    Ok(MediaParts {
        header,
        handler,
        hdlr,
        information,
    })
}

/// For each data reference in the box `dref` whether its data is in this file, as `read_dref`.
#[tactic(auto, unfolding(mp_movie::specs::Entries::references_fault, mp_movie::specs::Entries::local_references))]
fn read_references(alloc: Global, moov: &Moov<'_>, dref: ChildBox) -> Result<Vec<bool>, Fail>
    requires { IsPart moov.now dref }
    ensures { let box = part_of moov.now dref in
        Gives refusal (λ local. local.items) result (unless (references_fault box) (local_references box)) }
{
    let base = moov.body_place(dref);
    read_dref(alloc, moov.body(dref), base, dref.span.place)
}

/// The data references and the sample table in the box `minf`.
///
/// `BoxCut` and `BoxSize` in `minf`; `BoxMissing` and `BoxTwice` of `dinf` and `stbl`; the same in `dinf`,
/// of `dref`; then as `read_dref`.
#[tactic(auto, unfolding(crate::specs::Header::information_fault))]
pub(crate) fn read_information(
    alloc: Global,
    moov: &Moov<'_>,
    minf: ChildBox,
) -> Result<InformationParts, Fail>
    requires { IsPart moov.now minf }
    ensures information { let box = part_of moov.now minf in
        Gives refusal (λ parts. (parts.local.items, part_of moov.now parts.table)) result
        (unless (information_fault box) (information_in box)) }
    ensures table { IfOk result (λ parts. IsPart moov.now parts.table) }
{
    moov.check_boxes(minf)?;
    let dinf = moov.one(minf, *b"dinf")?;
    let table = moov.one(minf, *b"stbl")?;
    moov.check_boxes(dinf)?;
    let dref = moov.one(dinf, *b"dref")?;
    let local = read_references(alloc, moov, dref)?;
    Ok(InformationParts { local, table })
}
