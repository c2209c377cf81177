//! How many samples a track has, by each table that says so (ISO/IEC 14496-12, 8.6.1 and 8.7.3).

ghost use Rattle.std.specs.Prelude.{◌≡◌, ◌+◌, ◌≤◌, ℕ, [], ◌∷◌, IfOk, IfSome, Ok, Some, not, ◌==◌, option_map};
ghost use Rattle.mp_ports.specs.declared.code.Code.TheVariants.{CountMismatch};
ghost use Rattle.mp_ports.specs.Checks.{Checks, fault_at, first_code, unless};
ghost use Rattle.mp_columns.specs.declared.columns.TheConstants.{MOST_ITEMS};
ghost use Rattle.mp_movie.specs.SampleTable.{count_in, counts_fault};
ghost use Rattle.mp_read.specs.Part.{IsPart, part_of};
ghost use Rattle.mp_read.specs.Count.{AreCounted, counted_offsets, offsets_fault};
ghost use Rattle.mp_read.specs.Table.{AreParts, boxes_at};

use crate::moov::Moov;
use crate::table::TableParts;
use mp_boxes::ChildBox;
use mp_chunks::sample_count;
use mp_columns::MOST_ITEMS;
use mp_ports::{Bad, Code};
use mp_times::unfolded;

/// How many samples a table of times has an item for, and its place.
#[derive(Clone, Copy)]
struct Counted {
    samples: u64,
    place: u64,
}

/// How many samples `ctts` has an offset for.
fn count_offsets(moov: &Moov<'_>, ctts: Option<ChildBox>) -> Result<Option<Counted>, Bad>
    requires { IfSome ctts (IsPart moov.now) }
    ensures { result ≡ counted_offsets (option_map (part_of moov.now) ctts) }
{
    let Some(ctts) = ctts else {
        return Ok(None);
    };
    let place = ctts.span.place;
    let samples = unfolded(moov.body(ctts), place, true)?;
    Ok(Some(Counted { samples, place }))
}

/// Whether a table has an item for each sample.
fn check_count(counted: Counted, samples: u64) -> Result<(), Bad>
    ensures { Checks result (fault_at counted.place
        (first_code ((not (counted.samples == samples), CountMismatch) ∷ []))) }
{
    if counted.samples != samples {
        return Err(Bad::at(Code::CountMismatch, counted.place));
    }
    Ok(())
}

/// Whether `ctts`, where it is there, has an offset for each sample.
fn check_offsets(counted: Option<Counted>, samples: u64) -> Result<(), Bad>
    ensures { Checks result (offsets_fault counted samples) }
{
    match counted {
        Some(counted) => check_count(counted, samples),
        None => Ok(()),
    }
}

/// The number of samples of a track behind others that have so many.
///
/// `TableLength` and `BoxVersion` at `stts`, at `ctts`, at `stsz` or `stz2`; `CountMismatch` at `stts`, at
/// `ctts`; `SampleLimit` at 0.
#[tactic(auto, unfolding(mp_movie::specs::SampleTable::counts_fault))]
pub fn count_samples(moov: &Moov<'_>, parts: &TableParts, before: u64) -> Result<u32, Bad>
    requires parts { AreParts moov.now parts.now }
    requires before { before ≤ MOST_ITEMS }
    ensures count { let boxes = boxes_at moov.now parts.now in
        result ≡ unless (counts_fault before boxes) (count_in boxes) }
    ensures few { IfOk result (λ samples. before + samples ≤ MOST_ITEMS) }
    ensures counted { IfOk result (AreCounted (boxes_at moov.now parts.now)) }
{
    let place = parts.stts.span.place;
    let durations = unfolded(moov.body(parts.stts), place, false)?;
    let offsets = count_offsets(moov, parts.ctts)?;
    let samples = sample_count(&parts.tables(moov))?;
    check_count(
        Counted {
            samples: durations,
            place,
        },
        samples,
    )?;
    check_offsets(offsets, samples)?;
    if samples > u64::from(MOST_ITEMS) - before {
        return Err(Bad::at(Code::SampleLimit, 0));
    }
    Ok(samples as u32)
}
