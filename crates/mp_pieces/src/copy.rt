// Pieces of opened files, copied to the output one behind the other.
ghost use Rattle.std.specs.Prelude.{◌≡◌, ◌<◌, length, All, OnOk, IsErrOf};
ghost use Rattle.mp_ports.specs.Folder.{IsWriting};
ghost use Rattle.mp_pieces.specs.Copied.{Emits, StopsReading, StopsWriting, sizes_of};
ghost use Rattle.mp_pieces.specs.Piece.{IsHeld, pieces_bytes};

use crate::gather::{flush, gather_piece};
use crate::piece::Piece;
use crate::stand::blank_stand;
use mp_ports::Folder;
use thiserror::Error;

/// Why pieces were not all copied.
#[derive(Clone, Copy, Debug, PartialEq, Eq, Error)]
pub enum EmitFail {
    /// A read of the folder failed, and its count of failed reads rose.
    #[error("a read failed")]
    ReadFault,
    /// A write of the folder failed, and its count of failed writes rose.
    #[error("a write failed")]
    WriteFault,
}

/// Appends the bytes of the pieces, one behind the other, through a window of any length but 0.
///
/// What lies near in one file is read together, and appended together: about one read and one append for
/// each window's length of bytes, however short the pieces. It takes no memory.
pub fn copy_pieces<F: Folder>(
    folder: &mut F,
    pieces: &[Piece],
    window: &mut [u8],
) -> Result<(), EmitFail>
    requires held { All (IsHeld (sizes_of (F.state folder.old))) pieces.now }
    requires writing { IsWriting (F.state folder.old) }
    requires window { 0 < length window.old }
    ensures copied { OnOk result
        (Emits (F.state folder.old) (F.state folder.new) pieces.now (λ files. pieces_bytes files pieces.now)) }

    // A fault leaves a front of them, and the one count that is named for it rose.
    ensures read { IsErrOf result EmitFail.ReadFault
        → StopsReading (F.state folder.old) (F.state folder.new) pieces.now (λ files. pieces_bytes files pieces.now) }
    ensures write { IsErrOf result EmitFail.WriteFault
        → StopsWriting (F.state folder.old) (F.state folder.new) pieces.now (λ files. pieces_bytes files pieces.now) }
    ensures room { length window.new ≡ length window.old }
{
    let mut stand = blank_stand();
    for (at, piece) in pieces.iter().enumerate() {
        stand = match gather_piece(folder, *piece, &pieces[at + 1..], window, stand) {
            Ok(next) => next,
            Err(fail) => return Err(fail),
        };
    }
    match flush(folder, window, stand) {
        Ok(_) => Ok(()),
        Err(_) => Err(EmitFail::WriteFault),
    }
}
