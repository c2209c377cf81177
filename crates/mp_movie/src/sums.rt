//! Sums over columns, tracks and pieces, at most 2^64 - 1.

ghost use Rattle.std.specs.Prelude.{◌≡◌, ◌≤ℤ◌, pos, All, sum, sum_by, unsigned_abs};
ghost use Rattle.std.specs.List.{AllByRecursion};
ghost use Rattle.mp_boxes.specs.Table.{capped};
ghost use Rattle.mp_pieces.specs.Piece.{piece_len};
ghost use Rattle.mp_movie.specs.Placed.{naturals, payload_len, sample_count};
ghost use Rattle.mp_movie.specs.WholeParts.{AreColumns, IsNatural};

use crate::track::Track;
use mp_columns::{Col, Column};
use mp_pieces::{Piece, piece_len};

/// How many bytes pieces have together, their prefixes included.
pub fn pieces_len(pieces: &[Piece]) -> u64
    ensures { result ≡ capped (sum_by piece_len pieces.now) }
{
    let mut sum: u64 = 0;
    for piece in pieces {
        sum = sum.saturating_add(piece_len(*piece));
    }
    sum
}

/// The sum of numbers that aren't negative.
pub(crate) fn sum_of(column: &Col) -> u64
    requires { All IsNatural column.now }
    ensures { result ≡ capped (sum (naturals column.now)) }
{
    capped(column.total())
}

/// The number, where 64 bits hold it.
fn capped(number: i128) -> u64
    requires { pos 0 ≤ℤ number }
    ensures { result ≡ capped (unsigned_abs number) }
{
    u64::try_from(number).unwrap_or(u64::MAX)
}

/// How many samples the tracks have together.
pub(crate) fn count_of(tracks: &[Track]) -> u64
    ensures { result ≡ capped (sample_count tracks.now) }
{
    let mut count: u64 = 0;
    for track in tracks {
        count = count.saturating_add(u64::from(track.deltas.len()));
    }
    count
}

/// How many bytes their samples have together.
pub(crate) fn payload_of(tracks: &[Track]) -> u64
    requires { AllByRecursion AreColumns tracks.now }
    ensures { result ≡ capped (payload_len tracks.now) }
{
    let mut bytes: u64 = 0;
    for track in tracks {
        bytes = bytes.saturating_add(sum_of(&track.sizes));
    }
    bytes
}
