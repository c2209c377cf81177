//! A walk over the runs of `stsc` and the chunks of each, which places the samples.

ghost use Rattle.std.specs.Prelude.{◌≡◌, false, [], ℕ, ◌+◌, ◌<◌, length, OnOk};
ghost use Rattle.mp_ports.specs.Gives.{Gives, refusal};
ghost use Rattle.mp_chunks.specs.Samples.{columns_of, placed_from, runs};
ghost use Rattle.mp_chunks.specs.Chunks.{or_no_run, run_of_chunk};
ghost use Rattle.mp_chunks.specs.Walk.{AreInOrder, AreRead, HasWalked, IsDone, IsWalked, Walks, lacks_runs};

use crate::chunks::{ChunkRun, chunks_before, offset_in, run_fault, run_in};
use crate::places::{ChunkSamples, Places};
use crate::tables::Tables;
use mp_ports::{Bad, Code, Fail, NoMemory};
use std::alloc::Global;

/// How many entries, runs, chunks and samples a track has, and how many bytes the file.
#[derive(Clone, Copy)]
pub(crate) struct Limits {
    pub(crate) entries: u32,
    pub(crate) runs: u32,
    pub(crate) chunks: u32,
    pub(crate) samples: u64,
    pub(crate) file_size: u64,
}

impl Limits {
    /// Whether there are chunks, and no run.
    fn lacks_runs(self) -> bool
        ensures { result ≡ lacks_runs self }
    {
        self.chunks > 0 && self.runs == 0
    }
}

/// How far a walk has come.
#[derive(Drop)]
pub(crate) struct Walk {
    /// The samples that were placed.
    places: Places,
    /// How many chunks it has gone over.
    chunks: u32,
    /// How many samples these hold together.
    held: u64,
    /// Whether one of them ends behind the end of the file. Then no more are placed.
    outside: bool,
}

impl Walk {
    /// The walk before the first run.
    fn new(alloc: Global) -> Self
        ensures { result ≡ record { places = columns_of []; chunks = 0; held = 0; outside = false } }
    {
        Walk {
            places: Places::new(alloc),
            chunks: 0,
            held: 0,
            outside: false,
        }
    }

    /// Goes over the next chunk, by its run.
    ///
    /// Its samples are placed as long as none was outside, and the chunks hold no more than there are. Else the
    /// answer is a fault in any case.
    fn place_chunk(
        &mut self,
        tables: &Tables<'_>,
        limits: Limits,
        run: ChunkRun,
    ) -> Result<(), NoMemory>
        requires read { AreRead tables.now limits }
        requires more { self.old.chunks < limits.chunks }
        requires walked { IsWalked tables.now limits self.old }
        requires run { AreInOrder (runs tables.now)
            → or_no_run (run_of_chunk (runs tables.now) (self.old.chunks + 1)) ≡ run }
        ensures next { OnOk result (self.new.chunks ≡ self.old.chunks + 1) }
        ensures walked { OnOk result (IsWalked tables.now limits self.new) }
    {
        let before = self.chunks;
        let first = self.held;
        self.chunks += 1;
        self.held += u64::from(run.samples);
        if self.outside || self.held > limits.samples {
            return Ok(());
        }
        let chunk = ChunkSamples {
            first: first as u32,
            count: run.samples,
            kind: run.entry,
            from: offset_in(tables.body(tables.offsets), tables.wide, before),
        };
        self.outside = self.places.push_chunk(tables, chunk, limits)?;
        Ok(())
    }

    /// Goes over the chunks of the run before which there are so many.
    fn place_run(
        &mut self,
        tables: &Tables<'_>,
        limits: Limits,
        before: u32,
    ) -> Result<(), NoMemory>
        requires read { AreRead tables.now limits }
        requires inside { before < limits.runs }
        requires walked { HasWalked tables.now limits before self.old }
        ensures { OnOk result (HasWalked tables.now limits (before + 1) self.new) }
    {
        let stsc = tables.body(tables.stsc);
        let run = run_in(stsc, before);
        let end = chunks_before(stsc, before + 1, limits.chunks);
        while self.chunks < end {
            self.place_chunk(tables, limits, run)?;
        }
        Ok(())
    }

    /// Goes over all runs, and ends at the first that has a fault.
    fn place_runs(&mut self, tables: &Tables<'_>, limits: Limits) -> Result<(), Fail>
        requires read { AreRead tables.now limits }
        requires walked { HasWalked tables.now limits 0 self.old }
        ensures { Walks tables.now limits self.new result }
    {
        let stsc = tables.body(tables.stsc);
        for before in 0..limits.runs {
            if let Some(code) = run_fault(stsc, limits.entries, before) {
                return Err(Fail::Bad(Bad::at(code, tables.stsc.place)));
            }
            self.place_run(tables, limits, before)?;
        }
        Ok(())
    }

    /// What the walk over all runs has placed, where the chunks hold exactly the samples and none is outside.
    fn finish(self, tables: &Tables<'_>, limits: Limits) -> Result<Option<Places>, Fail>
        requires read { AreRead tables.now limits }
        requires some { lacks_runs limits ≡ false }
        requires done { IsDone tables.now limits self }
        ensures { Gives refusal (λ places. places) result (placed_from limits.entries limits.file_size tables.now) }
    {
        if self.held != limits.samples {
            return Err(Fail::Bad(Bad::at(Code::ChunkMap, tables.stsc.place)));
        }
        if self.outside {
            return Ok(None);
        }
        Ok(Some(self.places))
    }
}

/// The size, the number of the entry and the place of each sample.
pub(crate) fn place_samples(
    alloc: Global,
    tables: &Tables<'_>,
    limits: Limits,
) -> Result<Option<Places>, Fail>
    requires { AreRead tables.now limits }
    ensures { Gives refusal (λ places. places) result (placed_from limits.entries limits.file_size tables.now) }
{
    if limits.lacks_runs() {
        return Err(Fail::Bad(Bad::at(Code::ChunkMap, tables.stsc.place)));
    }
    let mut walk = Walk::new(alloc);
    walk.place_runs(tables, limits)?;
    walk.finish(tables, limits)
}
