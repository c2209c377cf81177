//! Chunks: where each begins, and the runs of `stsc` that say what it holds.

ghost use Rattle.std.specs.Prelude.{◌≡◌, ◌<◌, slice_index};
ghost use Rattle.mp_boxes.specs.FullBox.{HasRows, row_count};
ghost use Rattle.mp_chunks.specs.Chunks.{begins, offset_len, chunk_offsets_of, run_at, run_fault, run_len, stsc_of};
ghost use Rattle.mp_chunks.specs.Walk.{chunks_before};

use mp_boxes::{FIRST_FIELD, FIRST_ROW, u32_in, u64_in};
use mp_ports::Code;

/// The length of a row of `stsc`.
pub(crate) const RUN_LEN: usize = 12;

/// From chunk `first` on, a chunk holds so many samples, of this entry.
#[derive(Clone, Copy)]
pub(crate) struct ChunkRun {
    pub(crate) first: u32,
    pub(crate) samples: u32,
    pub(crate) entry: u32,
}

/// The length of an offset: 8 in `co64`, 4 in `stco`.
pub(crate) fn offset_len(wide: bool) -> usize
    ensures { result ≡ offset_len wide }
{
    if wide { 8 } else { 4 }
}

/// The place in the file of the chunk before which there are so many.
pub(crate) fn offset_in(body: &[u8], wide: bool, before: u32) -> u64
    requires whole { HasRows (offset_len wide) body.now }
    requires inside { before < row_count body.now }
    ensures { result ≡ slice_index (chunk_offsets_of wide body.now) before }
{
    if wide {
        u64_in(body, FIRST_ROW + 8 * before as usize)
    } else {
        u64::from(u32_in(body, FIRST_ROW + 4 * before as usize))
    }
}

/// The run of `stsc` before which there are so many.
pub(crate) fn run_in(body: &[u8], before: u32) -> ChunkRun
    requires whole { HasRows run_len body.now }
    requires inside { before < row_count body.now }
    ensures { result ≡ run_at (stsc_of body.now) before }
{
    let at = FIRST_ROW + RUN_LEN * before as usize;
    ChunkRun {
        first: u32_in(body, at),
        samples: u32_in(body, at + 4),
        entry: u32_in(body, at + 8),
    }
}

/// Whether the run before which there are so many begins behind the one before it, or else at chunk 1.
fn begins(body: &[u8], before: u32) -> bool
    requires whole { HasRows run_len body.now }
    requires inside { before < row_count body.now }
    ensures { result ≡ begins (stsc_of body.now) before }
{
    let first = run_in(body, before).first;
    if before == 0 {
        first == 1
    } else {
        run_in(body, before - 1).first < first
    }
}

/// The fault of the run before which there are so many.
#[tactic(auto, unfolding(crate::specs::Chunks::run_fault))]
pub(crate) fn run_fault(body: &[u8], entries: u32, before: u32) -> Option<Code>
    requires whole { HasRows run_len body.now }
    requires inside { before < row_count body.now }
    ensures { result ≡ run_fault entries (stsc_of body.now) before }
{
    if !begins(body, before) {
        return Some(Code::ChunkMap);
    }
    let run = run_in(body, before);
    if run.samples == 0 {
        return Some(Code::ChunkMap);
    }
    if run.entry == 0 || entries < run.entry {
        return Some(Code::EntryIndex);
    }
    None
}

/// How many of the chunks stand before the run before which there are so many; all stand before the end of
/// the runs.
#[tactic(auto, using(crate::proofs::TablesAreRead::stsc_len))]
pub(crate) fn chunks_before(body: &[u8], before: u32, chunks: u32) -> u32
    requires { HasRows run_len body.now }
    ensures { result ≡ chunks_before (stsc_of body.now) chunks before }
{
    if before < u32_in(body, FIRST_FIELD) {
        chunks.min(run_in(body, before).first.saturating_sub(1))
    } else {
        chunks
    }
}
