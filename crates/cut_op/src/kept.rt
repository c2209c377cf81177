//! Which samples of a track a cut keeps: one pass over them.

ghost use Rattle.std.specs.Prelude.{◌≡◌, ◌+◌, ◌<◌, ◌^◌, pos, neg_ℤ, ◌+ℤ◌, ◌≤ℤ◌, ◌<ℤ◌, unsigned_abs, List, if◌then◌else◌};
ghost use Rattle.std.specs.List.Sorted.{IsNonDecreasingBy};
ghost use Rattle.mp_times.specs.Sync.{is_sync};
ghost use Rattle.mp_movie.specs.CanBeWritten.{CanBeWritten};
ghost use Rattle.mp_movie.specs.Durations.{not_before_start};
ghost use Rattle.mp_clip.specs.declared.touching.Span.{Span};
ghost use Rattle.cut_op.specs.Found.{AreKept, found_next};
ghost use Rattle.cut_op.specs.Reach.{AreInOrder, touches_any};

use crate::reach::meets_any;
use mp_clip::Span;
use mp_columns::{Col, Column, Cursor, Run};
use mp_movie::Track;

/// The samples before which there are `from` and more, but not `to`.
#[derive(Clone, Copy)]
pub(crate) struct Kept {
    pub(crate) from: u32,
    pub(crate) to: u32,
}

/// The items of a column one after another: where the next run begins, and the run that is read, with how many
/// of its items are left.
#[derive(Drop)]
struct Items<'a> {
    column: &'a Col,
    cursor: Cursor,
    run: Run,
}

impl<'a> Items<'a> {
    ghost use Rattle.std.specs.Prelude.{◌≡◌, ◌≤◌, ◌<◌, ◌+◌, ◌-◌, ℕ, length, slice_index_or, pos};
    ghost use Rattle.cut_op.specs.Items.{AreLeft};

    /// From the first item on.
    fn of(column: &'a Col) -> Items<'a>
        ensures column { result.column.now ≡ column.now }
        ensures left { AreLeft column.now 0 result.cursor result.run }
    {
        Items {
            column,
            cursor: Cursor::at(0),
            run: Run { value: 0, count: 0 },
        }
    }

    /// The next item; 0 behind the last.
    fn next(&mut self) -> i64
        requires { self.old.cursor ≤ length self.old.column.now }
        ensures column { self.new.column ≡ self.old.column }
        ensures item { (place : ℕ) → place < length self.old.column.now
            → AreLeft self.old.column.now place self.old.cursor self.old.run
            → (result ≡ slice_index_or self.old.column.now place (pos 0))
            × AreLeft self.old.column.now (place + 1) self.new.cursor self.new.run }
    {
        self.fill();
        self.take()
    }

    /// Where the run is read, the next one is, if there is one.
    fn fill(&mut self)
        requires { self.old.cursor ≤ length self.old.column.now }
        ensures column { self.new.column ≡ self.old.column }
        ensures left { (place : ℕ) → place < length self.old.column.now
            → AreLeft self.old.column.now place self.old.cursor self.old.run
            → (0 < self.new.run.count) × AreLeft self.old.column.now place self.new.cursor self.new.run }
    {
        if self.run.count > 0 {
            return;
        }
        match self.column.next_run(&mut self.cursor) {
            Some(run) => self.run = run,
            None => {}
        }
    }

    /// An item of the run; 0 where it is read.
    fn take(&mut self) -> i64
        ensures column { self.new.column ≡ self.old.column }
        ensures cursor { self.new.cursor ≡ self.old.cursor }
        ensures item { 0 < self.old.run.count → result ≡ self.old.run.value }
        ensures run { 0 < self.old.run.count → self.new.run ≡ record self.old.run { count = self.old.run.count - 1 } }
    {
        if self.run.count == 0 {
            return 0;
        }
        self.run.count -= 1;
        self.run.value
    }
}

/// What was found in the samples so far: whether one is needed; how many stand before the last sync sample that
/// is at or before the first of them, or before here; how many there are up to the last that is needed.
#[derive(Clone, Copy)]
struct Found {
    needed: bool,
    from: u32,
    to: u32,
}

/// The samples of a track that the spans need, which are in order, with all between them and from the sync sample
/// on that the first one stands behind; none where none is needed.
pub(crate) fn kept_range(track: &Track, spans: &[Span]) -> Kept
    requires track { CanBeWritten track.now }
    requires sorted { IsNonDecreasingBy (λ span. span.from) spans.now }
    ensures { (those : List Span) → AreInOrder those spans.now → AreKept those track.now result.from result.to }
{
    let mut deltas = Items::of(&track.deltas);
    let mut offsets = Items::of(&track.offsets);
    let mut syncs = Items::of(&track.syncs);
    let mut decode: u64 = 0;
    let mut found = Found {
        needed: false,
        from: 0,
        to: 0,
    };
    for before in 0..track.deltas.len() {
        let delta = deltas.next();
        let offset = offsets.next();
        let mark = syncs.next();
        let needed = is_touched(spans, start_of(decode, offset), delta);
        found = next(found, before, is_sync(mark), needed);
        decode = next_decode(decode, delta);
    }
    range_of(found)
}

/// When a sample of that offset is composed.
fn start_of(decode: u64, offset: i64) -> i128
    ensures start { result ≡ pos decode +ℤ offset }
    ensures low { neg_ℤ (pos (2 ^ 100)) ≤ℤ result }
    ensures high { result ≤ℤ pos (2 ^ 100) }
{
    i128::from(decode) + i128::from(offset)
}

/// When the sample behind one of that duration is decoded.
fn next_decode(decode: u64, delta: i64) -> u64
    requires early { decode < 2 ^ 60 }
    requires natural { pos 0 ≤ℤ delta }
    requires short { delta <ℤ pos (2 ^ 32) }
    ensures { result ≡ decode + unsigned_abs delta }
{
    decode + delta.unsigned_abs()
}

/// Whether it is the mark of a sync sample.
fn is_sync(mark: i64) -> bool
    ensures { result ≡ is_sync mark }
{
    mark == 1
}

/// Whether a sample that is composed then, and lasts so long, has a tick in common with one of the spans.
fn is_touched(spans: &[Span], start: i128, delta: i64) -> bool
    requires sorted { IsNonDecreasingBy (λ span. span.from) spans.now }
    requires low { neg_ℤ (pos (2 ^ 100)) ≤ℤ start }
    requires high { start ≤ℤ pos (2 ^ 100) }
    ensures { (those : List Span) → AreInOrder those spans.now
        → result ≡ touches_any (not_before_start start) (not_before_start (start +ℤ delta)) those }
{
    let end = start + i128::from(delta);
    meets_any(spans, not_before_start(start), not_before_start(end))
}

/// What is found with one sample more.
fn next(found: Found, before: u32, sync: bool, needed: bool) -> Found
    requires { before + 1 < 2 ^ 32 }
    ensures { result ≡ found_next found before sync needed }
{
    Found {
        needed: found.needed || needed,
        from: if sync && !found.needed {
            before
        } else {
            found.from
        },
        to: if needed { before + 1 } else { found.to },
    }
}

/// The samples that were found.
fn range_of(found: Found) -> Kept
    ensures from { result.from ≡ (if found.needed then found.from else 0) }
    ensures to { result.to ≡ (if found.needed then found.to else 0) }
{
    if found.needed {
        Kept {
            from: found.from,
            to: found.to,
        }
    } else {
        Kept { from: 0, to: 0 }
    }
}

/// A time on the track's own timeline, 0 where it is before the start.
fn not_before_start(time: i128) -> u128
    ensures { result ≡ not_before_start time }
{
    if time < 0 { 0 } else { time.unsigned_abs() }
}
