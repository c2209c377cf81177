//! The movie of an opened file, each of its samples a piece of the file (ISO/IEC 14496-12, 8.2.1).

ghost use Rattle.std.specs.Prelude.{◌<◌, IfErr, IfOk, IfSome, length};
ghost use Rattle.mp_ports.specs.Folder.{opened_at};
ghost use Rattle.mp_ports.specs.Gives.{read_refusal};
ghost use Rattle.mp_ports.specs.Reading.{OnlyReads};
ghost use Rattle.mp_movie.specs.Present.{reading};
ghost use Rattle.mp_movie.specs.StandsFor.{Reads};
ghost use Rattle.mp_read.specs.Read.{IsFileRefusal, LiesIn};

use crate::file::read_tables;
use crate::law::{tables_are_parts, tables_fit, tables_stand_for_movies};
use crate::parts::parts_of;
use mp_movie::Movie;
use mp_ports::{Folder, ReadFail};
use std::alloc::Global;

/// The movie of an opened file. Of the file the heads of the boxes at the top and the movie box are read.
///
/// Refused as `read_tables`.
pub fn read_movie<F: Folder>(alloc: Global, folder: &mut F, file: u32) -> Result<Movie, ReadFail>
    requires { file < length (F.state folder.old).opened }
    // Where the folder tells the file's bytes, the answer stands for the movie that they present, or is their
    // first fault.
    ensures movie { IfSome (opened_at (F.state folder.old) file).bytes
        (λ bytes. Reads file bytes result (reading bytes)) }
    // Told or not, its samples are pieces of the file, and a refusal is one of a file.
    ensures inside { IfOk result (LiesIn file (opened_at (F.state folder.old) file).size) }
    ensures refusal { IfErr result (λ fail. IfSome (read_refusal fail) IsFileRefusal) }
    ensures folder { OnlyReads result (F.state folder.old) (F.state folder.new) }
{
    tables_stand_for_movies();
    tables_are_parts();
    tables_fit();
    let tables = match read_tables(alloc, folder, file) {
        Ok(tables) => tables,
        Err(fail) => return Err(fail),
    };
    let parts = parts_of(alloc, tables, file)?;
    Ok(Movie::from_parts(parts))
}
