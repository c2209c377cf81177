//! The import of a pair.

ghost use Rattle.std.specs.Prelude.{◌≡◌, ◌<◌, length, IfOk, IfErr, IfSome};
ghost use Rattle.mp_ports.specs.Folder.{opened_at};
ghost use Rattle.mp_ports.specs.Gives.{Gives, read_refusal};
ghost use Rattle.mp_ports.specs.Reading.{OnlyReads};
ghost use Rattle.mp_movie.specs.StandsFor.{Reads};
ghost use Rattle.nhnt_import.specs.Fault.{IsPairRefusal};
ghost use Rattle.nhnt_import.specs.Pair.{info_bytes, pair_movie};
ghost use Rattle.nhnt_import.specs.Placed.{IsImported, pair_places};

use crate::head::read_head;
use crate::info::{new_buffer, read_info};
use crate::movie::pair_movie;
use crate::walk::{count_records, read_units};
use mp_movie::Movie;
use mp_pieces::Window;
use mp_ports::{Folder, ReadFail};
use std::alloc::Global;

/// How many bytes are read at once.
const WINDOW_LEN: usize = 65_536;

/// Reads an opened NHNT table with its opened `.media` file and, where there is one, its `.info` file: a
/// movie of one track of pictures or sound, one sample a record.
///
/// The movie keeps where the samples stand in the `.media` file, and none of their bytes. They aren't read.
///
/// `NhntHead` and `NhntType` where the head of the table isn't one that is read, `NhntHead` with file 2
/// where the `.info` file is longer than 65,536 bytes, `SampleLimit` past 8,388,608 records. At the first
/// record that isn't as the import needs it: `NhntUnit`, `NhntOrder`, `NhntRange`, and `NhntCut` where the
/// table ends within it. Then `DeltaLimit` and `OffsetLimit`.
pub fn import_nhnt<F: Folder>(
    alloc: Global,
    folder: &mut F,
    table: u32,
    media: u32,
    info: Option<u32>,
) -> Result<Movie, ReadFail>
    requires table { table < length (F.state folder.old).opened }
    requires media { media < length (F.state folder.old).opened }
    requires info { IfSome info (λ file. file < length (F.state folder.old).opened) }
    // Where the folder tells the bytes of the files, the answer stands for their movie, or is their fault.
    ensures movie { IfSome (opened_at (F.state folder.old) table).bytes (λ rows.
        IfSome (opened_at (F.state folder.old) media).bytes (λ bytes.
        IfSome (info_bytes (F.state folder.old) info) (λ info.
        Reads media bytes result (pair_movie rows bytes info)))) }
    // Each sample is one piece of the `.media` file, of which only the size is asked.
    ensures places { IfSome (opened_at (F.state folder.old) table).bytes (λ rows.
        IfSome (info_bytes (F.state folder.old) info) (λ info.
        Gives read_refusal (λ movie. movie) result
        (pair_places media (opened_at (F.state folder.old) media).size rows info))) }
    // Whatever the bytes are, the movie is one of units in that file, and a refusal one of a pair.
    ensures units { IfOk result (IsImported media (opened_at (F.state folder.old) media).size) }
    ensures refusal { IfErr result (λ fail. IfSome (read_refusal fail) IsPairRefusal) }
    ensures folder { OnlyReads result (F.state folder.old) (F.state folder.new) }
{
    read_pair(alloc, folder, table, media, info)
}

/// The same. Nothing is said of the bytes of the samples.
fn read_pair<F: Folder>(
    alloc: Global,
    folder: &mut F,
    table: u32,
    media: u32,
    info: Option<u32>,
) -> Result<Movie, ReadFail>
    requires table { table < length (F.state folder.old).opened }
    requires media { media < length (F.state folder.old).opened }
    requires info { IfSome info (λ file. file < length (F.state folder.old).opened) }
    ensures places { IfSome (opened_at (F.state folder.old) table).bytes (λ rows.
        IfSome (info_bytes (F.state folder.old) info) (λ info.
        Gives read_refusal (λ movie. movie) result
        (pair_places media (opened_at (F.state folder.old) media).size rows info))) }
    ensures units { IfOk result (IsImported media (opened_at (F.state folder.old) media).size) }
    ensures refusal { IfErr result (λ fail. IfSome (read_refusal fail) IsPairRefusal) }
    ensures size { IfSome (opened_at (F.state folder.old) media).bytes
        (λ bytes. (opened_at (F.state folder.old) media).size ≡ length bytes) }
    ensures folder { OnlyReads result (F.state folder.old) (F.state folder.new) }
{
    let len = folder.size(table);
    let size = folder.size(media);
    let buffer = new_buffer(alloc, WINDOW_LEN)?;
    let mut window = Window::new(folder, table, buffer);
    let head = read_head(folder, table, &mut window)?;
    let info = read_info(alloc, folder, info)?;
    let count = count_records(len, head.wide)?;
    let columns = read_units(alloc, folder, table, media, window, head.wide, count)?;
    let movie = pair_movie(alloc, head, info, columns, media, size)?;
    Ok(movie)
}
