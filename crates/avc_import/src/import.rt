//! The import of a stream.

ghost use Rattle.std.specs.Prelude.{◌≡◌, ◌<◌, length, IfOk, IfSome};
ghost use Rattle.mp_ports.specs.Folder.{opened_at};
ghost use Rattle.mp_ports.specs.Reading.{OnlyReads};
ghost use Rattle.mp_movie.specs.StandsFor.{Reads};
ghost use Rattle.avc_import.specs.Movie.{IsRate, LiesIn};
ghost use Rattle.avc_import.specs.Stream.{stream_movie};

use crate::film::movie_of;
use crate::rate::Rate;
use crate::units::read_units;
use mp_movie::Movie;
use mp_ports::{Fail, Folder, ReadFail};
use std::alloc::Global;

/// Reads an opened file as an H.264 byte stream: a movie of one track of pictures, one sample a picture.
///
/// Each picture lasts as the rate says, else as the timing of the stream, else a 25th of a second. The movie keeps
/// where the units stand in the file, and none of their bytes.
///
/// At the first unit that is refused, in this order: `UnitLimit`, `UnitType`, a code of its elements, `SetChange` or
/// `UnitLimit` of a set, `FirstNotIdr`, `SampleLimit`. Behind all units `UnitFraming` where the file isn't cut into
/// further ones. Then `NoPicture`, `PocTie`, and the limits from `ScaleLimit` to `SizeLimit`.
pub fn import_avc<F: Folder>(
    alloc: Global,
    folder: &mut F,
    file: u32,
    rate: Option<Rate>,
) -> Result<Movie, ReadFail>
    requires opened { file < length (F.state folder.old).opened }
    requires rate { IfSome rate IsRate }
    // Where the folder tells the file's bytes, the answer stands for their movie, or is their first fault.
    ensures movie { IfSome (opened_at (F.state folder.old) file).bytes
        (λ bytes. Reads file bytes result (stream_movie rate bytes)) }
    // Whatever the bytes are, each piece of the movie lies in the file.
    ensures lies { IfOk result (LiesIn file (opened_at (F.state folder.old) file).size) }
    ensures folder { OnlyReads result (F.state folder.old) (F.state folder.new) }
{
    let judged = match read_units(alloc, folder, file) {
        Ok(judged) => judged,
        Err(fail) => return Err(fail),
    };
    match movie_of(alloc, judged, rate) {
        Ok(movie) => Ok(movie),
        Err(Fail::Bad(bad)) => Err(ReadFail::Bad(bad)),
        Err(Fail::NoMemory) => Err(ReadFail::NoMemory),
    }
}
