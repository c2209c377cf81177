//! The movie of a pair: columns of numbers, and the places of the units.

ghost use Rattle.std.specs.Prelude.{◌≡◌, ◌≤◌, List, length, pos, replicate, IfOk, IfErr, IfSome};
ghost use Rattle.mp_columns.specs.declared.columns.TheConstants.{MOST_ITEMS};
ghost use Rattle.mp_ports.specs.Checks.{fault_at, unless};
ghost use Rattle.mp_ports.specs.Gives.{Gives, refusal};
ghost use Rattle.mp_movie.specs.WellFormed.{IsEntryBox};
ghost use Rattle.nhnt_import.specs.declared.unit.AccessUnit.{AccessUnit};
ghost use Rattle.nhnt_import.specs.Entry.{entry_bytes};
ghost use Rattle.nhnt_import.specs.Fault.{IsPairRefusal, most_info};
ghost use Rattle.nhnt_import.specs.Head.{IsHead};
ghost use Rattle.nhnt_import.specs.Kept.{AreOf, track_of};
ghost use Rattle.nhnt_import.specs.Placed.{placed_movie};
ghost use Rattle.nhnt_import.specs.Times.{limit_fault};

use crate::columns::{Columns, close};
use crate::entry::{handler, pair_entry};
use crate::head::Head;
use mp_columns::{Col, Column};
use mp_movie::{Movie, Track, plain_heads_fit};
use mp_ports::{Fail, NoMemory};
use mp_timeline::TrackHead;
use std::alloc::Global;

/// The movie of one track whose samples are these units of a file.
///
/// `DeltaLimit` where a sample would last longer than 4,294,967,295 ticks, `OffsetLimit` where the
/// composition offsets fit neither 32 bits without a sign nor 32 bits with one.
pub(crate) fn pair_movie(
    alloc: Global,
    head: Head,
    info: Vec<u8>,
    columns: Columns,
    file: u32,
    size: u64,
) -> Result<Movie, Fail>
    requires fits { IsHead head }
    requires info { length info.items ≤ most_info }
    requires units { (units : List AccessUnit) × AreOf file size columns units }
    ensures movie { (units : List AccessUnit) → AreOf file size columns units
        → Gives refusal (λ movie. movie) result
        (unless (fault_at 0 (limit_fault units)) (placed_movie head info.items file units)) }
    ensures refusal { IfErr result (λ fail. IfSome (refusal fail) IsPairRefusal) }
{
    plain_heads_fit();
    let track = pair_track(alloc, head, info, columns)?;
    match Movie::from_track(alloc, track) {
        Ok(movie) => Ok(movie),
        Err((fail, _)) => Err(fail),
    }
}

/// The track of these columns.
#[tactic(auto, unfolding(crate::specs::Kept::track_of))]
fn pair_track(alloc: Global, head: Head, info: Vec<u8>, columns: Columns) -> Result<Track, NoMemory>
    requires fits { IsHead head }
    requires info { length info.items ≤ most_info }
    requires few { length columns.pieces ≤ MOST_ITEMS }
    ensures track { IfOk result (λ track. track ≡ track_of head info.items columns) }
    ensures entry { IfOk result (λ _. IsEntryBox (entry_bytes head info.items)) }
{
    let Columns {
        mut deltas,
        offsets,
        syncs,
        sizes,
        pieces,
    } = columns;
    close(&mut deltas)?;
    let count = pieces.len() as u32;
    let mut entries = Vec::new(alloc);
    entries.push(pair_entry(alloc, head, info)?)?;
    Ok(Track {
        number: 1,
        head: TrackHead::plain(alloc, handler(head))?,
        scale: head.scale,
        entries,
        deltas,
        offsets,
        syncs,
        kinds: ones(alloc, count)?,
        sizes,
        counts: ones(alloc, count)?,
        pieces,
        edits: None,
    })
}

/// So many ones.
fn ones(alloc: Global, count: u32) -> Result<Col, NoMemory>
    requires { count ≤ MOST_ITEMS }
    ensures { IfOk result (λ column. column ≡ replicate count (pos 1)) }
{
    let mut column = Col::new(alloc);
    column.push_copies(1, count)?;
    Ok(column)
}
