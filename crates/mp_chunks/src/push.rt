//! Writers of the tables: the length of each box, which is known before its bytes, and the box.

ghost use Rattle.std.specs.Prelude.{◌≡◌, ℕ, ◌==◌, ◌+◌, ◌^◌, ◌<◌, ◌≤◌, ◌∷◌, [], All, List, if◌then◌else◌, codes, length, map, replicate, unsigned_abs};
ghost use Rattle.std.specs.Int.{w32, FitsUnsigned};
ghost use Rattle.mp_boxes.specs.Field.{body_bytes, box_bytes};
ghost use Rattle.mp_boxes.specs.Push.{ArePushed, IsPushed};
ghost use Rattle.mp_boxes.specs.Table.{box_len, capped};
ghost use Rattle.mp_columns.specs.declared.columns.TheConstants.{MOST_ITEMS};
ghost use Rattle.mp_chunks.specs.Written.{chunk_offsets, is_of, place_field, place_row, run_from, run_row, runs_of, size_of_all, size_row, stsc, stsz};

use crate::chunks::{ChunkRun, RUN_LEN, offset_len};
use mp_boxes::{Field, begin_box, begin_table, box_len, push_bytes, push_fields, table_len};
use mp_columns::{Column, Cursor};

/// The length of a row of `stsz`.
const SIZE_LEN: u64 = 4;

/// A chunk of a track: where it begins in the file, how many samples it holds, and the number of their entry.
#[derive(Clone, Copy)]
pub struct ChunkHead {
    /// Where it begins in the file.
    pub place: u64,
    /// How many samples it holds.
    pub samples: u32,
    /// The number of their entry in `stsd`, counted from 1.
    pub entry: u32,
}

/// The length of the box `stsc` of these chunks, wherever they stand.
pub fn stsc_len(chunks: &[ChunkHead]) -> u64
    requires { length chunks.now ≤ MOST_ITEMS }
    ensures { result ≡ capped (box_len (stsc chunks.now)) }
{
    table_len(count_runs(chunks), RUN_LEN as u32)
}

/// Pushes the box `stsc` of these chunks (ISO/IEC 14496-12, 8.7.4): a row for the first, and for each that
/// holds another number of samples, or samples of another entry, than the one before it.
pub fn push_stsc(chunks: &[ChunkHead], out: &mut Vec<u8>)
    requires { length chunks.now ≤ MOST_ITEMS }
    ensures { IsPushed out.old out.new (box_bytes (stsc chunks.now)) }
{
    begin_table(out, *b"stsc", false, count_runs(chunks), RUN_LEN as u32);
    push_runs(chunks, out);
}

/// The length of the box `stsz` of these sizes.
pub fn stsz_len<C: Column>(sizes: &C) -> u64
    requires { All (FitsUnsigned w32) (C.items sizes.now) }
    ensures { result ≡ capped (box_len (stsz (map unsigned_abs (C.items sizes.now)))) }
{
    let common = size_of_all(sizes);
    let samples = sizes.len();
    sizes_len(common, samples)
}

/// Pushes the box `stsz` of these sizes (ISO/IEC 14496-12, 8.7.3.2): the one that all have, or each.
pub fn push_stsz<C: Column>(sizes: &C, out: &mut Vec<u8>)
    requires { All (FitsUnsigned w32) (C.items sizes.now) }
    ensures { IsPushed out.old out.new (box_bytes (stsz (map unsigned_abs (C.items sizes.now)))) }
{
    let common = size_of_all(sizes);
    let samples = sizes.len();
    let front = [
        Field::version_and_flags(false, 0),
        Field::U32(common),
        Field::U32(samples),
    ];
    begin_box(out, *b"stsz", &front, sizes_len(common, samples));
    if common == 0 {
        push_sizes(sizes, out);
    }
}

/// The length of the box `stco` of so many chunks, or `co64`, wherever they stand.
pub fn chunk_offsets_len(chunks: u32, wide: bool) -> u64
    ensures { (heads : List ChunkHead) → length heads ≡ chunks
        → result ≡ capped (box_len (chunk_offsets wide heads)) }
{
    table_len(chunks, offset_len(wide) as u32)
}

/// Pushes the box `stco` of these chunks, or `co64` (ISO/IEC 14496-12, 8.7.5): the place of each.
pub fn push_chunk_offsets(chunks: &[ChunkHead], wide: bool, out: &mut Vec<u8>)
    requires few { length chunks.now ≤ MOST_ITEMS }
    requires fits { All (λ chunk. chunk.place < (if wide then 2 ^ 64 else 2 ^ 32)) chunks.now }
    ensures { IsPushed out.old out.new (box_bytes (chunk_offsets wide chunks.now)) }
{
    let count = chunks.len() as u32;
    begin_table(
        out,
        offsets_kind(wide),
        false,
        count,
        offset_len(wide) as u32,
    );
    push_places(chunks, wide, out);
}

/// The type of the box of places.
fn offsets_kind(wide: bool) -> [u8; 4]
    ensures { result ≡ (if wide then codes "co64" else codes "stco") }
{
    if wide { *b"co64" } else { *b"stco" }
}

/// Whether the run holds for the chunk.
fn is_of(run: ChunkRun, chunk: ChunkHead) -> bool
    ensures { result ≡ is_of run chunk }
{
    run.samples == chunk.samples && run.entry == chunk.entry
}

/// The run that begins with the chunk before which there are so many.
fn run_from(before: usize, chunk: ChunkHead) -> ChunkRun
    requires { before < MOST_ITEMS }
    ensures { result ≡ run_from (before + 1) chunk }
{
    ChunkRun {
        first: before as u32 + 1,
        samples: chunk.samples,
        entry: chunk.entry,
    }
}

/// How many runs these chunks have.
#[tactic(auto, unfolding(crate::specs::Written::runs_of))]
fn count_runs(chunks: &[ChunkHead]) -> u32
    requires { length chunks.now ≤ MOST_ITEMS }
    ensures { result ≡ length (runs_of chunks.now) }
{
    let mut run = ChunkRun {
        first: 0,
        samples: 0,
        entry: 0,
    };
    let mut runs = 0;
    for before in 0..chunks.len() {
        let chunk = chunks[before];
        if !is_of(run, chunk) {
            run = run_from(before, chunk);
            runs += 1;
        }
    }
    runs
}

/// Pushes a row for each run of these chunks.
#[tactic(auto, unfolding(crate::specs::Written::runs_of))]
fn push_runs(chunks: &[ChunkHead], out: &mut Vec<u8>)
    requires { length chunks.now ≤ MOST_ITEMS }
    ensures { ArePushed out.old out.new (map body_bytes (map run_row (runs_of chunks.now))) }
{
    let mut run = ChunkRun {
        first: 0,
        samples: 0,
        entry: 0,
    };
    for before in 0..chunks.len() {
        let chunk = chunks[before];
        if !is_of(run, chunk) {
            run = run_from(before, chunk);
            let row = [
                Field::U32(run.first),
                Field::U32(run.samples),
                Field::U32(run.entry),
            ];
            push_fields(out, &row);
        }
    }
}

/// Pushes the place of each of these chunks.
fn push_places(chunks: &[ChunkHead], wide: bool, out: &mut Vec<u8>)
    requires { All (λ chunk. chunk.place < (if wide then 2 ^ 64 else 2 ^ 32)) chunks.now }
    ensures { ArePushed out.old out.new (map body_bytes (map (place_row wide) chunks.now)) }
{
    for &chunk in chunks {
        push_fields(out, &[place_field(chunk, wide)]);
    }
}

/// The place of the chunk, in 8 bytes or in 4.
fn place_field(chunk: ChunkHead, wide: bool) -> Field<'static>
    requires { chunk.place < (if wide then 2 ^ 64 else 2 ^ 32) }
    ensures { result ≡ place_field wide chunk }
{
    if wide {
        Field::U64(chunk.place)
    } else {
        Field::U32(chunk.place as u32)
    }
}

/// How many sizes are listed, where all have this one in common.
fn listed_of(common: u32, samples: u32) -> u32
    ensures { result ≡ (if common == 0 then samples else 0) }
{
    if common == 0 { samples } else { 0 }
}

/// The length of `stsz` of so many samples, where all have this size in common.
fn sizes_len(common: u32, samples: u32) -> u64
    ensures { (sizes : List ℕ) → common ≡ size_of_all sizes → samples ≡ length sizes
        → result ≡ capped (box_len (stsz sizes)) }
{
    let front = [
        Field::version_and_flags(false, 0),
        Field::U32(common),
        Field::U32(samples),
    ];
    box_len(&front, SIZE_LEN * u64::from(listed_of(common, samples)))
}

/// The size of a sample, which is an item of a column.
fn size_of(item: i64) -> u32
    requires { FitsUnsigned w32 item }
    ensures { result ≡ unsigned_abs item }
{
    item as u32
}

/// The size that all samples have, or 0 where there is none, or where it differs.
fn size_of_all<C: Column>(sizes: &C) -> u32
    requires { All (FitsUnsigned w32) (C.items sizes.now) }
    ensures { result ≡ size_of_all (map unsigned_abs (C.items sizes.now)) }
{
    let Some(first) = sizes.next_run(&mut Cursor::at(0)) else {
        return 0;
    };
    if first.count < sizes.len() {
        return 0;
    }
    size_of(first.value)
}

/// Pushes each size, stretch by stretch.
fn push_sizes<C: Column>(sizes: &C, out: &mut Vec<u8>)
    requires { All (FitsUnsigned w32) (C.items sizes.now) }
    ensures { ArePushed out.old out.new (map body_bytes (map size_row (map unsigned_abs (C.items sizes.now)))) }
{
    let mut cursor = Cursor::at(0);
    while let Some(stretch) = sizes.next_run(&mut cursor) {
        push_copies(size_of(stretch.value), stretch.count, out);
    }
}

/// Pushes the size so many times.
fn push_copies(size: u32, count: u32, out: &mut Vec<u8>)
    ensures { ArePushed out.old out.new (replicate count (body_bytes (size_row size))) }
{
    for _before in 0..count {
        push_bytes(out, &size.to_be_bytes());
    }
}
