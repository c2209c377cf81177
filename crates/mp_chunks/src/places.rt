//! The places of samples, chunk by chunk.

ghost use Rattle.std.specs.Prelude.{◌≡◌, ℕ, ◌+◌, ◌<◌, ◌≤◌, ◌++◌, [], ◌∷◌, length, pos, nat_lt, IfErr, IfOk, OnOk, None, Ok, Some};
ghost use Rattle.mp_ports.specs.Gives.{Gives, refusal};
ghost use Rattle.mp_chunks.specs.Samples.{AreWithin, chunks_fault, columns_of, count_from, placed_from, places_from};
ghost use Rattle.mp_chunks.specs.Walk.{AreRead, HasPlaced, IsChunk, PlacesOrOutside};

use crate::chunks::{RUN_LEN, offset_len};
use crate::sizes::{sample_count, size_in};
use crate::tables::Tables;
use crate::walk::{Limits, place_samples};
use mp_boxes::row_count;
use mp_columns::{Col, Column, MOST_ITEMS};
use mp_ports::{Bad, Code, Fail, NoMemory};
use std::alloc::Global;
use std::marker::Model;

/// The size, the number of the entry and the place of each sample, in sample order.
#[derive(Drop)]
pub struct Places {
    /// How long each sample is, in bytes.
    pub sizes: Col,
    /// The number of its entry in `stsd`, counted from 1.
    pub kinds: Col,
    /// Where it begins in the file.
    pub from: Vec<u64>,
}

impl Model for Places {
    ghost use Rattle.mp_chunks.specs.Samples.{PlacesRecord};

    ghost Value = { PlacesRecord };

    ghost view = { λ p. record { sizes = p.sizes; kinds = p.kinds; from = p.from.items } };
}

/// The samples of a chunk: `count` of one entry behind the `first` samples, from a place of the file on.
#[derive(Clone, Copy)]
pub(crate) struct ChunkSamples {
    pub(crate) first: u32,
    pub(crate) count: u32,
    pub(crate) kind: u32,
    pub(crate) from: u64,
}

/// Whether a sample ends behind the end of the file.
fn is_outside(from: u64, size: u32, file_size: u64) -> bool
    ensures { result ≡ nat_lt file_size (from + size) }
{
    file_size < from || file_size - from < u64::from(size)
}

impl Places {
    /// No samples.
    pub(crate) fn new(alloc: Global) -> Self
        ensures { result ≡ columns_of [] }
    {
        Places {
            sizes: Col::new(alloc),
            kinds: Col::new(alloc),
            from: Vec::new(alloc),
        }
    }

    /// One sample more.
    fn push(&mut self, size: u32, kind: u32, from: u64) -> Result<(), NoMemory>
        requires sizes { length self.old.sizes + 1 ≤ MOST_ITEMS }
        requires kinds { length self.old.kinds + 1 ≤ MOST_ITEMS }
        ensures { OnOk result (self.new ≡ record {
          sizes = self.old.sizes ++ pos size ∷ [];
          kinds = self.old.kinds ++ pos kind ∷ [];
          from = self.old.from ++ from ∷ [];
        }) }
    {
        self.sizes.push(i64::from(size))?;
        self.kinds.push(i64::from(kind))?;
        self.from.push(from)?;
        Ok(())
    }

    /// The samples of one chunk more, up to one that ends behind the end of the file; and whether there is
    /// such a one.
    pub(crate) fn push_chunk(
        &mut self,
        tables: &Tables<'_>,
        chunk: ChunkSamples,
        limits: Limits,
    ) -> Result<bool, NoMemory>
        requires read { AreRead tables.now limits }
        requires chunk { IsChunk tables.now chunk }
        requires placed { HasPlaced tables.now limits.file_size chunk.first self.old }
        ensures { IfOk result (λ outside.
            PlacesOrOutside tables.now limits.file_size (chunk.first + chunk.count) outside self.new) }
    {
        let sizes = tables.body(tables.sizes);
        let mut from = chunk.from;
        for before in chunk.first..chunk.first + chunk.count {
            let size = size_in(sizes, tables.compact, before);
            if is_outside(from, size, limits.file_size) {
                return Ok(true);
            }
            self.push(size, chunk.kind, from)?;
            from += u64::from(size);
        }
        Ok(false)
    }
}

/// How many runs, chunks and samples there are, where `stsc`, and `stco` or `co64`, have no fault of a table.
fn read_limits(tables: &Tables<'_>, entries: u32, file_size: u64) -> Result<Limits, Bad>
    requires within { AreWithin tables.now }
    requires counted { (n : ℕ) × (count_from tables.now ≡ Ok n) × (n ≤ MOST_ITEMS) }
    ensures read { IfOk result (λ limits. AreRead tables.now limits) }
    ensures given { IfOk result (λ limits. (limits.entries ≡ entries) × (limits.file_size ≡ file_size)) }
    ensures fault { IfErr result (λ bad. chunks_fault entries tables.now ≡ Some bad) }
{
    let stsc = tables.body(tables.stsc);
    let offsets = tables.body(tables.offsets);
    let runs = row_count(stsc, 0, RUN_LEN, tables.stsc.place)?;
    let chunks = row_count(offsets, 0, offset_len(tables.wide), tables.offsets.place)?;
    let samples = sample_count(tables)?;
    Ok(Limits {
        entries,
        runs,
        chunks,
        samples,
        file_size,
    })
}

/// What `read_places` answers, but for its last check: `None` where a sample ends behind the end of the file.
pub fn find_places(
    alloc: Global,
    tables: &Tables<'_>,
    entries: u32,
    file_size: u64,
) -> Result<Option<Places>, Fail>
    requires within { AreWithin tables.now }
    requires counted { (n : ℕ) × (count_from tables.now ≡ Ok n) × (n ≤ MOST_ITEMS) }
    ensures found { Gives refusal (λ places. places) result (placed_from entries file_size tables.now) }
    ensures mapped { OnOk result (chunks_fault entries tables.now ≡ None) }
{
    let limits = read_limits(tables, entries, file_size)?;
    place_samples(alloc, tables, limits)
}

/// The size, the number of the entry and the place of each sample, by the tables of a track with so many
/// entries, in a file of so many bytes (ISO/IEC 14496-12, 8.7.3 to 8.7.5).
///
/// `BoxVersion` and `TableLength` at `stsc`, then at `stco` or `co64`; then, all at `stsc`, run by run
/// `ChunkMap` for a first chunk that isn't 1 in the first run or isn't behind that of the run before, and
/// for a run of no samples, and `EntryIndex` for an entry that isn't there; `ChunkMap` where there are
/// chunks and no run, or all chunks together don't hold exactly the samples; `SampleOutside` at `stco` or
/// `co64` where a sample ends behind the end of the file. The table of sizes is to be read, which
/// `sample_count` tells.
pub fn read_places(
    alloc: Global,
    tables: &Tables<'_>,
    entries: u32,
    file_size: u64,
) -> Result<Places, Fail>
    requires within { AreWithin tables.now }
    requires counted { (n : ℕ) × (count_from tables.now ≡ Ok n) × (n ≤ MOST_ITEMS) }
    ensures { Gives refusal (λ places. places) result (places_from entries file_size tables.now) }
{
    match find_places(alloc, tables, entries, file_size)? {
        Some(places) => Ok(places),
        None => Err(Fail::Bad(Bad::at(Code::SampleOutside, tables.offsets.place))),
    }
}
