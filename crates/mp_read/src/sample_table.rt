//! A sample table: its entries, and its samples column by column (ISO/IEC 14496-12, 8.5 to 8.7).

ghost use Rattle.std.specs.Prelude.{◌≡◌, ◌+◌, ◌≤◌, IfOk, length};
ghost use Rattle.mp_ports.specs.Checks.{unless};
ghost use Rattle.mp_ports.specs.Gives.{Gives, refusal};
ghost use Rattle.mp_columns.specs.declared.columns.TheConstants.{MOST_ITEMS};
ghost use Rattle.mp_entries.specs.Description.{most_entries};
ghost use Rattle.mp_movie.specs.Entries.{entries_fault, entries_of};
ghost use Rattle.mp_movie.specs.SampleTable.{count_in};
ghost use Rattle.mp_read.specs.Part.{IsPart, part_of};
ghost use Rattle.mp_read.specs.Table.{sample_table_fault, sample_table_in, table_boxes};

use crate::columns::{SampleColumns, read_columns};
use crate::count::count_samples;
use crate::moov::Moov;
use crate::table::find_tables;
use mp_boxes::ChildBox;
use mp_entries::read_stsd;
use mp_ports::Fail;
use mp_timeline::EntryBytes;
use std::alloc::Global;

/// The sample entries of a track, each with data reference 1, and its samples.
#[derive(Drop)]
pub struct SampleTable {
    pub entries: Vec<EntryBytes>,
    pub columns: SampleColumns,
}

/// The sample entries in the box `stsd`, as `read_stsd`.
#[tactic(auto, unfolding(mp_movie::specs::Entries::entries_fault, mp_movie::specs::Entries::entries_of))]
fn read_entries(
    alloc: Global,
    moov: &Moov<'_>,
    stsd: ChildBox,
    local: &[bool],
) -> Result<Vec<EntryBytes>, Fail>
    requires { IsPart moov.now stsd }
    ensures entries { let box = part_of moov.now stsd in
        Gives refusal (λ entries. entries.items) result
        (unless (entries_fault local.now box) (entries_of local.now box)) }
    ensures few { IfOk result (λ entries. length entries.items ≤ most_entries) }
{
    let base = moov.body_place(stsd);
    read_stsd(alloc, moov.body(stsd), base, stsd.span.place, local)
}

/// The sample table in the box `stbl`, of a track behind others that have so many samples, in a file of so many
/// bytes. `local` tells which of the data references are in the file.
///
/// Refused in this order: as `find_tables`; as `read_stsd`; as `count_samples`; as `read_columns`.
#[tactic(auto, using(crate::proofs::Steps::sample_table_steps))]
pub fn read_sample_table(
    alloc: Global,
    moov: &Moov<'_>,
    stbl: ChildBox,
    local: &[bool],
    before: u64,
    file_size: u64,
) -> Result<SampleTable, Fail>
    requires part { IsPart moov.now stbl }
    requires before { before ≤ MOST_ITEMS }
    ensures table { let box = part_of moov.now stbl in
        Gives refusal (λ table. (table.entries.items, table.columns)) result
        (unless (sample_table_fault file_size before local.now box) (sample_table_in local.now box)) }
    ensures few { IfOk result (λ table. before + length table.columns.sync_marks ≤ MOST_ITEMS) }
    ensures count { IfOk result (λ table. length table.columns.sync_marks ≡ count_in (table_boxes
        (part_of moov.now stbl))) }
{
    let table = find_tables(moov, stbl)?;
    let entries = read_entries(alloc, moov, table.stsd, local)?;
    let samples = count_samples(moov, &table, before)?;
    let entry_count = entries.len() as u32;
    let columns = read_columns(alloc, moov, &table, samples, entry_count, file_size)?;
    Ok(SampleTable { entries, columns })
}
