// Bytes of files are read ahead in a window, and gathered at its front.
ghost use Rattle.std.specs.Prelude.{◌≡◌, ◌+◌, ◌<◌, ◌≤◌, ◌++◌, [], ◌∷◌, length, IfOk, OnOk, OnErr, IsErrOf};
ghost use Rattle.mp_ports.specs.Folder.{IsWriting, Appends, FailsToAppend, FailsToRead, opened_at};
ghost use Rattle.mp_pieces.specs.Copied.{StopsReading, StopsWriting, sizes_of};
ghost use Rattle.mp_pieces.specs.Gathered.{Gathers, IsAhead, IsStand, gathered};
ghost use Rattle.mp_pieces.specs.Piece.{IsHeld, piece_bytes, prefix_bytes, range_bytes};

use crate::copy::EmitFail;
use crate::piece::Piece;
use crate::stand::{Stand, is_ahead, keep, put, room_before};
use crate::window::lesser;
use mp_ports::{Folder, PortFault};

/// So many bytes between two pieces are read with them, at most.
const NEAR: u64 = 1024;

/// Appends what is kept, with no call where that is nothing.
pub(crate) fn flush<F: Folder>(
    folder: &mut F,
    window: &[u8],
    stand: Stand,
) -> Result<Stand, PortFault>
    requires kept { stand.kept ≤ length window.now }
    requires writing { IsWriting (F.state folder.old) }
    ensures appended { OnOk result
        (Appends (F.state folder.old) (F.state folder.new) (gathered window.now stand)) }
    ensures stand { IfOk result (λ next. next ≡ record stand { kept = 0 }) }
    ensures failed { OnErr result
        (FailsToAppend (F.state folder.old) (F.state folder.new) (gathered window.now stand)) }
{
    if stand.kept > 0 {
        folder.append(&window[..stand.kept])?;
    }
    Ok(Stand {
        kept: 0,
        begin: stand.begin,
        end: stand.end,
        file: stand.file,
        to: stand.to,
    })
}

/// Where the pieces end that follow near behind the place `end` of this file, one behind the other.
///
/// It looks no further than to the place `most`.
fn near_end(behind: &[Piece], file: u32, end: u64, most: u64) -> u64
    ensures { end ≤ result }
{
    let mut last = end;
    for piece in behind {
        if last >= most {
            return last;
        }
        if piece.len > 0 {
            if piece.file != file || piece.from < last || piece.from - last > NEAR {
                return last;
            }
            last = piece.from.saturating_add(u64::from(piece.len));
        }
    }
    last
}

/// How many bytes are read together from the place `at` on, which lies in a piece that ends at `end`.
fn wanted(behind: &[Piece], file: u32, at: u64, end: u64, size: u64, most: usize) -> usize
    requires inside { at < end }
    requires size { end ≤ size }
    requires most { 0 < most }
    ensures some { 0 < result }
    ensures most { result ≤ most }
    ensures inside { at + result ≤ size }
{
    let last = near_end(behind, file, end, at.saturating_add(most as u64));
    let last = if last < size { last } else { size };
    lesser(last - at, most)
}

/// Reads so many bytes of the file from the place `at` on into the window, from the index `begin` on.
fn read_ahead<F: Folder>(
    folder: &mut F,
    file: u32,
    at: u64,
    window: &mut [u8],
    stand: Stand,
    begin: usize,
    count: usize,
) -> Result<Stand, PortFault>
    requires file { file < length (F.state folder.old).opened }
    requires range { at + count ≤ (opened_at (F.state folder.old) file).size }
    requires room { begin + count ≤ length window.old }
    requires kept { stand.kept ≤ begin }
    requires some { 0 < count }
    ensures kept { IfOk result (λ next. gathered window.new next ≡ gathered window.old stand) }
    ensures stands { IfOk result (λ next. IsStand (F.state folder.new) window.new next) }
    ensures ahead { IfOk result (λ next. IsAhead next file at) }
    ensures room { length window.new ≡ length window.old }
    ensures same { OnOk result (F.state folder.new ≡ F.state folder.old) }
    ensures failed { OnErr result (FailsToRead (F.state folder.old) (F.state folder.new)) }
{
    let _size = folder.size(file);
    folder.read_at(file, at, &mut window[begin..begin + count])?;
    Ok(Stand {
        kept: stand.kept,
        begin,
        end: begin + count,
        file,
        to: at + count as u64,
    })
}

/// Appends what is kept where fewer than `count` bytes fit behind it.
fn make_room<F: Folder>(
    folder: &mut F,
    window: &[u8],
    stand: Stand,
    count: usize,
) -> Result<Stand, PortFault>
    requires kept { stand.kept ≤ length window.now }
    requires writing { IsWriting (F.state folder.old) }
    requires room { count ≤ length window.now }
    ensures gathered { IfOk result
        (λ next. Gathers (F.state folder.old) (F.state folder.new) []
        (λ _. gathered window.now stand) (gathered window.now next)) }
    ensures room { IfOk result (λ next. next.kept + count ≤ length window.now) }
    ensures failed { OnErr result
        (FailsToAppend (F.state folder.old) (F.state folder.new) (gathered window.now stand)) }
{
    if count <= window.len() - stand.kept {
        return Ok(stand);
    }
    flush(folder, window, stand)
}

/// Lets the byte at the place `at` of the piece be read ahead.
///
/// Where it isn't yet, it is read with those near behind it. Pieces with prefixes may grow, so that theirs
/// are read into the end of the window.
fn reach<F: Folder>(
    folder: &mut F,
    piece: Piece,
    behind: &[Piece],
    at: u64,
    window: &mut [u8],
    stand: Stand,
) -> Result<Stand, EmitFail>
    requires held { IsHeld (sizes_of (F.state folder.old)) piece }
    requires inside { at < piece.from + piece.len }
    requires writing { IsWriting (F.state folder.old) }
    requires window { 0 < length window.old }
    requires stands { IsStand (F.state folder.old) window.old stand }
    ensures gathered { IfOk result
        (λ next. Gathers (F.state folder.old) (F.state folder.new) []
        (λ _. gathered window.old stand) (gathered window.new next)) }
    ensures stands { IfOk result (λ next. IsStand (F.state folder.new) window.new next) }
    ensures ahead { IfOk result (λ next. IsAhead next piece.file at) }
    ensures room { length window.new ≡ length window.old }
    ensures read { IsErrOf result EmitFail.ReadFault
        → StopsReading (F.state folder.old) (F.state folder.new) [] (λ _. gathered window.old stand) }
    ensures write { IsErrOf result EmitFail.WriteFault
        → StopsWriting (F.state folder.old) (F.state folder.new) [] (λ _. gathered window.old stand) }
{
    if is_ahead(stand, piece.file, at) {
        return Ok(stand);
    }
    let grows = piece.prefix.is_some();
    let room = window.len();
    let most = if grows { room - room / 64 } else { room };
    let size = folder.size(piece.file);
    let end = piece.from + u64::from(piece.len);
    let count = wanted(behind, piece.file, at, end, size, most);
    let Ok(stand) = make_room(folder, window, stand, count) else {
        return Err(EmitFail::WriteFault);
    };
    let begin = if grows { room - count } else { stand.kept };
    match read_ahead(folder, piece.file, at, window, stand, begin, count) {
        Ok(next) => Ok(next),
        Err(_) => Err(EmitFail::ReadFault),
    }
}

/// Gathers the bytes of a piece behind its prefix.
fn gather_range<F: Folder>(
    folder: &mut F,
    piece: Piece,
    behind: &[Piece],
    window: &mut [u8],
    stand: Stand,
) -> Result<Stand, EmitFail>
    requires held { IsHeld (sizes_of (F.state folder.old)) piece }
    requires writing { IsWriting (F.state folder.old) }
    requires window { 0 < length window.old }
    requires stands { IsStand (F.state folder.old) window.old stand }
    ensures gathered { IfOk result (λ next. Gathers (F.state folder.old) (F.state folder.new) (piece ∷ [])
        (λ files. gathered window.old stand ++ range_bytes files piece piece.len) (gathered window.new next)) }
    ensures stands { IfOk result (λ next. IsStand (F.state folder.new) window.new next) }
    ensures room { length window.new ≡ length window.old }
    ensures read { IsErrOf result EmitFail.ReadFault
        → StopsReading (F.state folder.old) (F.state folder.new) (piece ∷ [])
        (λ files. gathered window.old stand ++ range_bytes files piece piece.len) }
    ensures write { IsErrOf result EmitFail.WriteFault
        → StopsWriting (F.state folder.old) (F.state folder.new) (piece ∷ [])
        (λ files. gathered window.old stand ++ range_bytes files piece piece.len) }
{
    let _size = folder.size(piece.file);
    let len = u64::from(piece.len);
    let mut stand = stand;
    let mut done = 0;
    while done < len {
        let at = piece.from + done;
        stand = match reach(folder, piece, behind, at, window, stand) {
            Ok(next) => next,
            Err(fail) => return Err(fail),
        };
        let count = lesser(len - done, (stand.to - at) as usize);
        stand = keep(window, stand, at, count);
        done += count as u64;
    }
    Ok(stand)
}

/// Gathers the prefix of a piece, in front of its bytes where they were read ahead.
fn gather_prefix<F: Folder>(
    folder: &mut F,
    piece: Piece,
    window: &mut [u8],
    stand: Stand,
) -> Result<Stand, PortFault>
    requires writing { IsWriting (F.state folder.old) }
    requires stands { IsStand (F.state folder.old) window.old stand }
    ensures gathered { IfOk result
        (λ next. Gathers (F.state folder.old) (F.state folder.new) []
        (λ _. gathered window.old stand ++ prefix_bytes piece.prefix) (gathered window.new next)) }
    ensures stands { IfOk result (λ next. IsStand (F.state folder.new) window.new next) }
    ensures room { length window.new ≡ length window.old }
    ensures failed { OnErr result
        (StopsWriting (F.state folder.old) (F.state folder.new) []
        (λ _. gathered window.old stand ++ prefix_bytes piece.prefix)) }
{
    let Some(prefix) = piece.prefix else {
        return Ok(stand);
    };
    let bytes = prefix.to_be_bytes();
    if room_before(stand, piece.file, piece.from, window.len()) >= 4 {
        return Ok(put(window, stand, &bytes));
    }
    let Ok(stand) = flush(folder, window, stand) else {
        return Err(PortFault);
    };
    if room_before(stand, piece.file, piece.from, window.len()) >= 4 {
        return Ok(put(window, stand, &bytes));
    }
    let Ok(()) = folder.append(&bytes) else {
        return Err(PortFault);
    };
    Ok(stand)
}

/// Gathers the bytes of a piece, where those `behind` it follow.
pub(crate) fn gather_piece<F: Folder>(
    folder: &mut F,
    piece: Piece,
    behind: &[Piece],
    window: &mut [u8],
    stand: Stand,
) -> Result<Stand, EmitFail>
    requires held { IsHeld (sizes_of (F.state folder.old)) piece }
    requires writing { IsWriting (F.state folder.old) }
    requires window { 0 < length window.old }
    requires stands { IsStand (F.state folder.old) window.old stand }
    ensures gathered { IfOk result (λ next. Gathers (F.state folder.old) (F.state folder.new) (piece ∷ [])
        (λ files. gathered window.old stand ++ piece_bytes files piece) (gathered window.new next)) }
    ensures stands { IfOk result (λ next. IsStand (F.state folder.new) window.new next) }
    ensures room { length window.new ≡ length window.old }
    ensures read { IsErrOf result EmitFail.ReadFault
        → StopsReading (F.state folder.old) (F.state folder.new) (piece ∷ [])
        (λ files. gathered window.old stand ++ piece_bytes files piece) }
    ensures write { IsErrOf result EmitFail.WriteFault
        → StopsWriting (F.state folder.old) (F.state folder.new) (piece ∷ [])
        (λ files. gathered window.old stand ++ piece_bytes files piece) }
{
    let Ok(stand) = gather_prefix(folder, piece, window, stand) else {
        return Err(EmitFail::WriteFault);
    };
    gather_range(folder, piece, behind, window, stand)
}
