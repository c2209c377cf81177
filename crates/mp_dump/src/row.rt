//! The numbers of a sample.

ghost use Rattle.std.specs.Prelude.{◌≡◌, ◌<◌, ◌^◌, length, slice_index};
ghost use Rattle.mp_times.specs.Times.{decode_time};
ghost use Rattle.mp_movie.specs.Placed.{naturals};
ghost use Rattle.mp_movie.specs.WholeParts.{AreColumns};
ghost use Rattle.mp_dump.specs.Track.{row_in};

use mp_columns::{Col, Column};
use mp_movie::Track;

/// A sample without its bytes: how many they are, its times in ticks of the track, whether it is a sync
/// sample, and its entry, counted from 1.
#[derive(Clone, Copy, Debug, PartialEq, Eq)]
pub struct Row {
    pub size: u64,
    pub decode: u128,
    pub dur: u64,
    pub comp: i128,
    pub sync: bool,
    pub entry: u64,
}

/// The sample of the track before which there are so many; it is decoded at that time.
#[tactic(auto, unfolding(crate::specs::Track::row_in))]
pub fn row_at(track: &Track, before: u32, decode: u128) -> Row
    requires columns { AreColumns track.now }
    requires inside { before < length track.now.deltas }
    requires decode { decode ≡ decode_time (naturals track.now.deltas) before }
    requires short { decode < 2 ^ 88 }
    ensures row { result ≡ row_in track.now before }
    ensures short { result.dur < 2 ^ 64 }
{
    Row {
        size: natural_at(&track.sizes, before),
        decode,
        dur: natural_at(&track.deltas, before),
        comp: decode as i128 + i128::from(track.offsets.at(before)),
        sync: track.syncs.at(before) == 1,
        entry: natural_at(&track.kinds, before),
    }
}

/// An item of a column of numbers that aren't negative.
#[tactic(auto, using(crate::proofs::RowsByColumns::item_of))]
fn natural_at(column: &Col, i: u32) -> u64
    requires { i < length column.now }
    ensures { result ≡ slice_index (naturals column.now) i }
{
    column.at(i).unsigned_abs()
}
