//! The tables of the samples of a track, unfolded (ISO/IEC 14496-12, 8.6.1, 8.6.2 and 8.7.3 to 8.7.5).

ghost use Rattle.std.specs.Prelude.{◌≡◌, ◌≤◌, IfOk, IfSome, Ok, true, length, option_map, replicate};
ghost use Rattle.mp_ports.specs.Checks.{unless};
ghost use Rattle.mp_ports.specs.Gives.{Gives, refusal};
ghost use Rattle.mp_columns.specs.declared.columns.TheConstants.{MOST_ITEMS};
ghost use Rattle.mp_times.specs.Times.{unfolded};
ghost use Rattle.mp_movie.specs.SampleTable.{composition_offsets_of, places_fault, sync_marks_of};
ghost use Rattle.mp_read.specs.Columns.{columns_in, marks_fault};
ghost use Rattle.mp_read.specs.Count.{AreCounted};
ghost use Rattle.mp_read.specs.Part.{IsPart, part_of};
ghost use Rattle.mp_read.specs.Table.{AreParts, boxes_at};

use crate::moov::Moov;
use crate::table::TableParts;
use mp_boxes::ChildBox;
use mp_chunks::{Places, find_places};
use mp_columns::{Col, Column};
use mp_ports::{Bad, Code, Fail, NoMemory};
use mp_times::{read_ctts, read_stss, read_stts};
use std::alloc::Global;
use std::marker::Model;

/// The samples of a track, column by column, each with an item for each sample.
#[derive(Drop)]
pub struct SampleColumns {
    /// How long it lasts, in ticks of the track's scale.
    pub durations: Col,
    /// Its composition time less its decode time, in these ticks.
    pub composition_offsets: Col,
    /// 1 where it is a sync sample, else 0.
    pub sync_marks: Col,
    /// Its size, the number of its entry, and its place in the file.
    pub places: Places,
}

impl Model for SampleColumns {
    ghost use Rattle.mp_read.specs.Columns.{ColumnsRecord};

    ghost Value = { ColumnsRecord };

    ghost view = { λ c. record {
      durations = c.durations;
      composition_offsets = c.composition_offsets;
      sync_marks = c.sync_marks;
      places = c.places;
    } };
}

impl SampleColumns {
    /// These columns.
    fn of(
        durations: Col,
        composition_offsets: Col,
        sync_marks: Col,
        places: Places,
    ) -> SampleColumns
        ensures { result ≡ record {
          durations = durations;
          composition_offsets = composition_offsets;
          sync_marks = sync_marks;
          places = places;
        } }
    {
        SampleColumns {
            durations,
            composition_offsets,
            sync_marks,
            places,
        }
    }
}

/// A column of so many equal items.
pub(crate) fn copies(alloc: Global, value: i64, count: u32) -> Result<Col, NoMemory>
    requires { count ≤ MOST_ITEMS }
    ensures { IfOk result (λ column. column ≡ replicate count value) }
{
    let mut column = Col::new(alloc);
    column.push_copies(value, count)?;
    Ok(column)
}

/// The composition offset of each of so many samples: 0 without `ctts`.
fn read_offsets(
    alloc: Global,
    moov: &Moov<'_>,
    ctts: Option<ChildBox>,
    samples: u32,
) -> Result<Col, Fail>
    requires part { IfSome ctts (IsPart moov.now) }
    requires few { samples ≤ MOST_ITEMS }
    requires counted { IfSome (option_map (part_of moov.now) ctts) (λ ctts. unfolded true ctts.body ≡ Ok samples) }
    ensures { Gives refusal (λ column. column) result (Ok (composition_offsets_of samples
        (option_map (part_of moov.now) ctts))) }
{
    match ctts {
        Some(ctts) => read_ctts(alloc, moov.body(ctts), ctts.span.place),
        None => Ok(copies(alloc, 0, samples)?),
    }
}

/// The sync mark of each of so many samples: 1 without `stss`.
fn read_marks(
    alloc: Global,
    moov: &Moov<'_>,
    stss: Option<ChildBox>,
    samples: u32,
) -> Result<Col, Fail>
    requires part { IfSome stss (IsPart moov.now) }
    requires few { samples ≤ MOST_ITEMS }
    ensures marks { let box = option_map (part_of moov.now) stss in
        Gives refusal (λ column. column) result (unless (marks_fault samples box) (sync_marks_of samples box)) }
    ensures length { IfOk result (λ column. length column ≡ samples) }
{
    match stss {
        Some(stss) => read_stss(alloc, moov.body(stss), stss.span.place, samples),
        None => Ok(copies(alloc, 1, samples)?),
    }
}

/// The samples of a track with so many samples and entries, in a file of so many bytes.
///
/// `BoxVersion`, `TableLength`, `ChunkMap` and `EntryIndex` of the chunks, as `find_places`; then at `stss`, as
/// `read_stss`; then `SampleOutside` at `stco` or `co64` where a sample ends behind the end of the file.
#[tactic(auto, unfolding(mp_movie::specs::SampleTable::places_fault, crate::specs::Columns::columns_in))]
pub fn read_columns(
    alloc: Global,
    moov: &Moov<'_>,
    parts: &TableParts,
    samples: u32,
    entries: u32,
    file_size: u64,
) -> Result<SampleColumns, Fail>
    requires parts { AreParts moov.now parts.now }
    requires few { samples ≤ MOST_ITEMS }
    requires counted { AreCounted (boxes_at moov.now parts.now) samples }
    ensures columns { let boxes = boxes_at moov.now parts.now in
        Gives refusal (λ columns. columns) result (unless (places_fault entries file_size boxes) (columns_in boxes)) }
    ensures length { IfOk result (λ columns. length columns.sync_marks ≡ samples) }
{
    let found = find_places(alloc, &parts.tables(moov), entries, file_size)?;
    let sync_marks = read_marks(alloc, moov, parts.stss, samples)?;
    let Some(places) = found else {
        return Err(Bad::at(Code::SampleOutside, parts.places.span.place).into());
    };
    let durations = read_stts(alloc, moov.body(parts.stts), parts.stts.span.place)?;
    let composition_offsets = read_offsets(alloc, moov, parts.ctts, samples)?;
    Ok(SampleColumns::of(durations, composition_offsets, sync_marks, places))
}
