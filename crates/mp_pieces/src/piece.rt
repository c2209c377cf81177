// Pieces of opened files.
ghost use Rattle.std.specs.Prelude.{◌≡◌};
ghost use Rattle.mp_pieces.specs.Piece.{piece_len};

/// A prefix, if any, as four bytes, most significant first, and then `len` bytes of an opened file from the
/// place `from` on.
#[derive(Clone, Copy, Debug, PartialEq, Eq)]
pub struct Piece {
    /// The number of the opened file.
    pub file: u32,
    /// The place of its first byte in the file.
    pub from: u64,
    /// How many bytes of the file it has.
    pub len: u32,
    /// What stands in front of them.
    pub prefix: Option<u32>,
}

/// The number of bytes of a piece, its prefix included.
pub fn piece_len(piece: Piece) -> u64
    ensures { result ≡ piece_len piece }
{
    match piece.prefix {
        None => u64::from(piece.len),
        Some(_) => u64::from(piece.len) + 4,
    }
}
