//! Where the chunks of a movie stand, one behind the other, from its columns.

ghost use Rattle.std.specs.Prelude.{◌≡◌, ◌+◌, ◌<◌, ◌≤◌, ◌^◌, IfOk, length, map, sum, take};
ghost use Rattle.std.specs.List.{AllByRecursion};
ghost use Rattle.mp_boxes.specs.Table.{capped};
ghost use Rattle.mp_interleave.specs.Law.{IsWithin};
ghost use Rattle.mp_movie.specs.CanBeWritten.{CanBeWritten};
ghost use Rattle.mp_columns.specs.declared.columns.TheConstants.{MOST_ITEMS};
ghost use Rattle.mp_movie.specs.Placed.{naturals, payload_len, sample_count};
ghost use Rattle.mp_layout.specs.Chunked.{len_of, places_behind};

use mp_columns::{Col, Column};
use mp_interleave::Chunk;
use mp_movie::Track;
use mp_ports::NoMemory;
use std::alloc::Global;

/// The sum of the items from one number on, up to and without another.
pub fn range_sum(column: &Col, from: u32, to: u32) -> u64
    requires short { sum (naturals column.now) < 2 ^ 63 }
    requires order { from ≤ to }
    requires inside { to ≤ length column.now }
    ensures is { sum (take from (naturals column.now)) + result ≡ sum (take to (naturals column.now)) }
    ensures short { sum (take from (naturals column.now)) + result < 2 ^ 63 }
{
    let mut sum = 0;
    for i in from..to {
        sum += column.at(i).unsigned_abs();
    }
    sum
}

/// How many bytes the samples of the chunk have together.
fn chunk_len(tracks: &[Track], chunk: Chunk) -> u64
    requires within { IsWithin tracks.now chunk }
    requires written { AllByRecursion CanBeWritten tracks.now }
    requires few_samples { sample_count tracks.now ≤ MOST_ITEMS }
    requires short { payload_len tracks.now < 2 ^ 55 }
    ensures { result ≡ len_of tracks.now chunk }
{
    let track = &tracks[chunk.track as usize];
    let first = chunk.first - 1;
    range_sum(&track.sizes, first, first + chunk.count)
}

/// How far behind the payload's first byte each chunk stands.
pub fn chunk_places(alloc: Global, tracks: &[Track], chunks: &[Chunk]) -> Result<Vec<u64>, NoMemory>
    requires within { AllByRecursion (IsWithin tracks.now) chunks.now }
    requires written { AllByRecursion CanBeWritten tracks.now }
    requires few_samples { sample_count tracks.now ≤ MOST_ITEMS }
    requires short { payload_len tracks.now < 2 ^ 55 }
    ensures { IfOk result (λ places. places.items ≡ places_behind tracks.now 0 chunks.now) }
{
    let mut places = Vec::new(alloc);
    let mut place: u64 = 0;
    for at in 0..chunks.len() {
        places.push(place)?;
        place = place.saturating_add(chunk_len(tracks, chunks[at]));
    }
    Ok(places)
}

/// The places, where the payload's first byte stands there.
pub fn moved(alloc: Global, places: &[u64], place: u64) -> Result<Vec<u64>, NoMemory>
    ensures { IfOk result (λ moved. moved.items ≡ map (λ behind. capped (place + behind)) places.now) }
{
    let mut moved = Vec::new(alloc);
    for at in 0..places.len() {
        moved.push(place.saturating_add(places[at]))?;
    }
    Ok(moved)
}
