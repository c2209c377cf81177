//! One unit after another, through a window.
ghost use Rattle.std.specs.Prelude.{◌≡◌, ◌+◌, ◌<◌, ◌≤◌, List, length, IfSome, IfOk};
ghost use Rattle.mp_ports.specs.Folder.{FolderState, OpenedFile, opened_at};
ghost use Rattle.mp_ports.specs.Checks.{bad_at};
ghost use Rattle.avc_units.specs.Units.{Placed, HasUnits};
ghost use Rattle.avc_units.specs.Reader.{IsReaderOf, IsNextUnit, LiesBehind, OnlyReads, end_after};
ghost use Rattle.avc_units.specs.Scan.{Gives, Keeps};

use crate::piece::Piece;
use crate::window::Source;
use mp_ports::{Bad, Code, Folder};

// The longest unit that is read, in bytes.
const LONGEST_UNIT: u64 = 16_777_216;

/// A unit of a file: its place and its length in bytes, the start code left out.
#[derive(Clone, Copy, Debug, PartialEq, Eq)]
pub struct UnitSpan {
    /// The place of its first byte.
    pub from: u64,
    /// Its length, at most 16,777,216.
    pub len: u32,
}

/// Why there is no next unit to be answered.
#[derive(Clone, Copy, Debug, PartialEq, Eq)]
pub enum UnitFail {
    /// `UnitFraming` at the byte that is no start code or at an empty unit, `UnitLimit` at a unit that is too long.
    Bad(Bad),
    /// A read of the folder failed, and its count of failed reads rose.
    ReadFault,
}

/// Reads the units of a byte stream one after another (H.264, Annex B).
///
/// It stands behind the first units of its file: behind none at first.
#[derive(Drop)]
pub struct UnitReader {
    file: u32,
    size: u64,
    end: u64,
    piece: Piece,
    ghost inside: { end ≤ size },
}

impl UnitReader {
    /// A reader of the opened file of that number and size. It takes no memory.
    pub fn new(file: u32, size: u64) -> UnitReader
        ensures file { result.file ≡ file }
        ensures size { result.size ≡ size }
        ensures front { result.end ≡ 0 }
        ensures reader { (opened : OpenedFile) → size ≡ opened.size → IsReaderOf opened result.size result.piece }
    {
        UnitReader {
            file,
            size,
            end: 0,
            piece: Piece::new(),
        }
    }

    /// The next unit of the file, and None where there is none; the reader then stands behind it.
    ///
    /// After any other answer it stands where it stood. It takes no memory, and what the window holds is anything.
    pub fn next<F: Folder>(
        &mut self,
        folder: &mut F,
        window: &mut [u8],
    ) -> Result<Option<UnitSpan>, UnitFail>
        requires file { self.old.file < length (F.state folder.old).opened }
        requires reader { IsReaderOf (opened_at (F.state folder.old) self.old.file) self.old.size self.old.piece }
        requires window { 16 ≤ length window.old }

        // Where the folder tells, the answer is what comes next behind the units that the reader stands behind.
        ensures told { IfSome (opened_at (F.state folder.old) self.old.file).bytes
            (λ file. (us : List Placed) → HasUnits file us self.old.end → IsNextUnit file us self.old.end result) }
        // Over every folder, units lie in the file, one behind the other.
        ensures behind { IfOk result (λ found. IfSome found (λ span. LiesBehind self.old.end self.old.size span)) }

        ensures end { self.new.end ≡ end_after self.old.end result }
        ensures file { self.new.file ≡ self.old.file }
        ensures size { self.new.size ≡ self.old.size }
        ensures reader { IsReaderOf (opened_at (F.state folder.new) self.new.file) self.new.size self.new.piece }
        ensures reads { OnlyReads result (F.state folder.old) (F.state folder.new) }
    {
        let source = Source {
            file: self.file,
            size: self.size,
        };
        match look(folder, source, self.end, &mut self.piece, window) {
            Ok(Some(span)) => {
                self.end = span.from + u64::from(span.len);
                Ok(Some(span))
            }
            Ok(None) => Ok(None),
            Err(fail) => Err(fail),
        }
    }
}

// What comes next from that place on.
fn look<F: Folder>(
    folder: &mut F,
    source: Source,
    end: u64,
    piece: &mut Piece,
    window: &mut [u8],
) -> Result<Option<UnitSpan>, UnitFail>
    requires file { source.file < length (F.state folder.old).opened }
    requires size { source.size ≡ (opened_at (F.state folder.old) source.file).size }
    requires end { end ≤ source.size }
    requires kept { Keeps (opened_at (F.state folder.old) source.file) piece.old }
    requires window { 16 ≤ length window.old }
    ensures gives { IfSome (opened_at (F.state folder.old) source.file).bytes (λ b. Gives b end result) }
    ensures behind { IfOk result (λ found. IfSome found (λ span. LiesBehind end source.size span)) }
    ensures kept { Keeps (opened_at (F.state folder.old) source.file) piece.new }
    ensures reads { OnlyReads result (F.state folder.old) (F.state folder.new) }
{
    if let Some(span) = piece.unit_behind(end) {
        return Ok(Some(span));
    }
    let _size = folder.size(source.file);
    let first = match piece.first_byte(folder, source, end) {
        Ok(Some(first)) => first,
        Ok(None) => return Ok(None),
        Err(_) => return Err(UnitFail::ReadFault),
    };
    if first.byte != 1 || first.place - end < 2 {
        return Err(refused(Code::UnitFraming, first.place));
    }
    let from = first.place + 1;
    let behind = match piece.end_of(folder, source, from, window) {
        Ok(behind) => behind,
        Err(_) => return Err(UnitFail::ReadFault),
    };
    if behind == from {
        return Err(refused(Code::UnitFraming, from));
    }
    if LONGEST_UNIT < behind - from {
        return Err(refused(Code::UnitLimit, from));
    }
    Ok(Some(UnitSpan {
        from,
        len: (behind - from) as u32,
    }))
}

// The refusal at a place of the file.
fn refused(code: Code, place: u64) -> UnitFail
    ensures { result ≡ UnitFail.Bad (bad_at code place) }
{
    UnitFail::Bad(Bad::at(code, place))
}
