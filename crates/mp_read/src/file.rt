//! The movie of an opened file, of which the movie box alone is in memory (ISO/IEC 14496-12, 8.2.1).

ghost use Rattle.std.specs.Prelude.{◌≡◌, ◌≢◌, ◌+◌, ◌<◌, ◌≤◌, ◌^◌, IfErr, IfOk, IfSome, length};
ghost use Rattle.std.specs.List.{AllByRecursion};
ghost use Rattle.mp_ports.specs.declared.fault.Bad.{Bad};
ghost use Rattle.mp_ports.specs.Checks.{unless};
ghost use Rattle.mp_ports.specs.Gives.{Gives, read_refusal, refusal};
ghost use Rattle.mp_ports.specs.Folder.{ReadsFrom, opened_at};
ghost use Rattle.mp_ports.specs.Reading.{OnlyReads};
ghost use Rattle.mp_boxes.specs.Boxes.{front_box};
ghost use Rattle.mp_movie.specs.Present.{first_fault, moov_in, movie_fault};
ghost use Rattle.mp_read.specs.Movie.{IsRead, movie_tables};
ghost use Rattle.mp_read.specs.Read.{IsFileRefusal};
ghost use Rattle.mp_read.specs.Top.{IsInFile};
ghost use Rattle.mp_read.specs.Track.{LiesInFile};

use crate::moov::Moov;
use crate::movie::{MovieTables, read_moov};
use crate::top::{FileBox, find_moov, zeros};
use mp_boxes::{ChildBox, Span};
use mp_ports::{Bad, Code, Fail, Folder, ReadFail};
use std::alloc::Global;

/// The longest movie box that is read, header included, in bytes.
pub const MOST_MOOV: u64 = 268_435_456;

/// All bytes of a box of an opened file.
fn read_box<F: Folder>(
    alloc: Global,
    folder: &mut F,
    file: u32,
    found: FileBox,
) -> Result<Vec<u8>, ReadFail>
    requires opened { file < length (F.state folder.old).opened }
    requires inside { IsInFile (opened_at (F.state folder.old) file).size found }
    ensures bytes { IfOk result (λ bytes. ReadsFrom (opened_at (F.state folder.old) file) found.place bytes.items) }
    ensures len { IfOk result (λ bytes. length bytes.items ≡ found.head.len) }
    ensures no_refusal { IfErr result (λ fail. (bad : Bad) → fail ≢ ReadFail.Bad bad) }
    ensures folder { OnlyReads result (F.state folder.old) (F.state folder.new) }
{
    let mut bytes = zeros(alloc, found.head.len as usize)?;
    let Ok(()) = folder.read_at(file, found.place, &mut bytes) else {
        return Err(ReadFail::ReadFault);
    };
    Ok(bytes)
}

/// The movie of these bytes of a movie box, in a file of so many bytes: as `read_moov`.
fn read_bytes(alloc: Global, bytes: &[u8], found: FileBox, size: u64) -> Result<MovieTables, Fail>
    requires inside { IsInFile size found }
    requires len { length bytes.now ≡ found.head.len }
    requires short { found.head.len ≤ MOST_MOOV }
    ensures movie { let box = front_box found.head found.place bytes.now in
        Gives refusal (λ movie. movie) result (unless (movie_fault size box) (movie_tables box)) }
    ensures read { IfOk result (IsRead size) }
    ensures refusal { IfErr result (λ fail. IfSome (refusal fail) IsFileRefusal) }
{
    let moov = Moov {
        bytes,
        base: found.place,
    };
    let span = Span {
        from: found.head.head as usize,
        to: found.head.len as usize,
        place: found.place,
    };
    let kind = found.head.kind;
    read_moov(alloc, &moov, ChildBox { kind, span }, size)
}

/// The movie of an opened file, tables in place of its samples.
///
/// Refused in this order: as `find_moov`; `MoovLimit` where the movie box is longer than 268,435,456 bytes; as
/// `read_moov`.
pub fn read_tables<F: Folder>(
    alloc: Global,
    folder: &mut F,
    file: u32,
) -> Result<MovieTables, ReadFail>
    requires { file < length (F.state folder.old).opened }
    // Where the folder tells the file's bytes, the answer is their movie, or their first fault.
    ensures movie { IfSome (opened_at (F.state folder.old) file).bytes (λ bytes.
        Gives read_refusal (λ movie. movie) result (unless (first_fault bytes) (movie_tables (moov_in bytes)))) }
    // Told or not, its samples lie in the file.
    ensures inside { IfOk result (λ movie.
        AllByRecursion (LiesInFile (opened_at (F.state folder.old) file).size) movie.tracks) }
    ensures read { IfOk result (IsRead (opened_at (F.state folder.old) file).size) }
    ensures refusal { IfErr result (λ fail. IfSome (read_refusal fail) IsFileRefusal) }
    ensures folder { OnlyReads result (F.state folder.old) (F.state folder.new) }
{
    let size = folder.size(file);
    let found = find_moov(alloc, folder, file)?;
    if found.head.len > MOST_MOOV {
        return Err(ReadFail::Bad(Bad::at(Code::MoovLimit, found.place)));
    }
    let bytes = read_box(alloc, folder, file, found)?;
    Ok(read_bytes(alloc, &bytes, found, size)?)
}
