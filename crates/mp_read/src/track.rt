//! A track by its track box (ISO/IEC 14496-12, 8.3).

ghost use Rattle.std.specs.Prelude.{◌≡◌, ◌+◌, ◌≤◌, List, IfOk, IsOk, length, map};
ghost use Rattle.mp_ports.specs.Gives.{Gives, refusal};
ghost use Rattle.mp_boxes.specs.Boxes.{Box};
ghost use Rattle.mp_columns.specs.declared.columns.TheConstants.{MOST_ITEMS};
ghost use Rattle.mp_headers.specs.Handler.{name_of};
ghost use Rattle.mp_movie.specs.Children.{children, user_data};
ghost use Rattle.mp_movie.specs.Heads.{track_head};
ghost use Rattle.mp_movie.specs.SampleTable.{count_in};
ghost use Rattle.mp_movie.specs.TrackBoxes.{boxes_of};
ghost use Rattle.mp_read.specs.Part.{IsPart, part_of};
ghost use Rattle.mp_read.specs.Track.{read_track, samples_in, tables_of};

use crate::columns::SampleColumns;
use crate::edits::read_edits;
use crate::header::{MediaParts, read_header, read_information, read_media};
use crate::moov::Moov;
use crate::sample_table::read_sample_table;
use mp_boxes::ChildBox;
use mp_columns::Column;
use mp_headers::{Tkhd, name_of};
use mp_ports::{Fail, NoMemory};
use mp_timeline::{EntryBytes, Segment, TrackHead};
use std::alloc::Global;
use std::marker::Model;

/// A track as its boxes say it, tables in place of its samples.
#[derive(Drop)]
pub struct TrackTables {
    pub number: u32,
    pub head: TrackHead,
    /// Ticks a second.
    pub scale: u32,
    pub entries: Vec<EntryBytes>,
    pub columns: SampleColumns,
    pub edits: Option<Vec<Segment>>,
}

impl Model for TrackTables {
    ghost use Rattle.std.specs.Prelude.{option_map};
    ghost use Rattle.mp_read.specs.Track.{TrackTablesRecord};

    ghost Value = { TrackTablesRecord };

    ghost view = { λ t. record {
      number = t.number;
      head = t.head;
      scale = t.scale;
      entries = t.entries.items;
      columns = t.columns;
      edits = option_map (λ list. list.items) t.edits;
    } };
}

impl TrackTables {
    /// How many samples it has.
    pub fn sample_count(&self) -> u32
        ensures { result ≡ length self.now.columns.sync_marks }
    {
        self.columns.sync_marks.len()
    }
}

/// The head of a track by its headers, the name behind its handler, and its user data.
fn head_of(
    alloc: Global,
    moov: &Moov<'_>,
    trak: ChildBox,
    header: &Tkhd,
    media: &MediaParts,
) -> Result<TrackHead, NoMemory>
    requires trak { IsPart moov.now trak }
    requires whole { IsOk (children (part_of moov.now trak)) }
    requires hdlr { IsPart moov.now media.now.hdlr }
    ensures { IfOk result (λ head. head ≡ track_head header.now media.now.header media.now.handler
        (name_of (part_of moov.now media.now.hdlr).body) (user_data (part_of moov.now trak))) }
{
    let matrix = header.matrix;
    let handler = media.handler;
    let name = Vec::from_slice(alloc, name_of(moov.body(media.hdlr)))?;
    let udta = moov.user_data(alloc, trak)?;
    Ok(TrackHead {
        flags: header.flags,
        created: header.created,
        modified: header.modified,
        layer: header.layer,
        group: header.group,
        volume: header.volume,
        matrix,
        width: header.width,
        height: header.height,
        media_created: media.header.created,
        media_modified: media.header.modified,
        language: media.header.language,
        handler,
        name,
        udta,
    })
}

/// The track of the box `trak`, behind these tracks, which have so many samples; in a file of so many bytes.
///
/// Refused in this order: the track header and its number, the media header and the handler, the data references,
/// the boxes of the sample table, the sample entries, the numbers of samples, the chunks, the sync samples and the
/// places, the edits.
#[tactic(auto, using(crate::proofs::Steps::track_steps))]
pub fn read_trak(
    alloc: Global,
    moov: &Moov<'_>,
    trak: ChildBox,
    earlier: &[TrackTables],
    before: u64,
    file_size: u64,
) -> Result<TrackTables, Fail>
    requires part { IsPart moov.now trak }
    requires before { before ≤ MOST_ITEMS }
    ensures track { (others : List Box) → earlier.now ≡ map tables_of others → before ≡ samples_in others
        → Gives refusal (λ track. track) result (read_track file_size others (part_of moov.now trak)) }
    ensures few { IfOk result (λ track. before + length track.columns.sync_marks ≤ MOST_ITEMS) }
    ensures count { (others : List Box) → earlier.now ≡ map tables_of others
        → IfOk result (λ track. length track.columns.sync_marks ≡ count_in (boxes_of (part_of moov.now trak))) }
{
    let parts = read_header(moov, trak, earlier)?;
    let media = read_media(moov, parts.media)?;
    let information = read_information(alloc, moov, media.information)?;
    let local = &information.local;
    let table = read_sample_table(alloc, moov, information.table, local, before, file_size)?;
    let edits = read_edits(alloc, moov, parts.edits)?;
    let Ok(head) = head_of(alloc, moov, trak, &parts.header, &media) else {
        return Err(Fail::NoMemory);
    };
    Ok(TrackTables {
        number: parts.header.number,
        head,
        scale: media.header.timescale,
        entries: table.entries,
        columns: table.columns,
        edits,
    })
}
