//! The import of a stream.

ghost use Rattle.std.specs.Prelude.{◌≡◌, ◌<◌, length, IfOk, IfErr, IfSome};
ghost use Rattle.mp_ports.specs.Folder.{opened_at};
ghost use Rattle.mp_ports.specs.Gives.{Gives, read_refusal};
ghost use Rattle.mp_ports.specs.Reading.{OnlyReads};
ghost use Rattle.mp_movie.specs.StandsFor.{Reads};
ghost use Rattle.adts_import.specs.Places.{IsSound};
ghost use Rattle.adts_import.specs.Stream.{IsStreamRefusal, stream_movie, stream_places};

use crate::sound::sound_movie;
use crate::walk::{read_configuration, read_places};
use mp_movie::Movie;
use mp_pieces::Window;
use mp_ports::{Folder, ReadFail};
use std::alloc::{AllocError, Global};

/// How many bytes are read at once.
const WINDOW_LEN: usize = 65_536;

/// Reads an opened file as a stream of ADTS frames: a movie of one track of sound, one sample a frame.
///
/// The movie keeps where the payloads stand in the file, and none of their bytes.
///
/// `AdtsEmpty` where the file has no bytes. At the first frame that isn't as the header says or as
/// the import needs it: `AdtsCut`, `AdtsSync`, `AdtsLayer`, `AdtsRate`, `AdtsChannels`, `AdtsBlocks`,
/// and `AdtsChange` where its configuration isn't the first one's. `SampleLimit` past 8,388,608 frames.
pub fn import_adts<F: Folder>(alloc: Global, folder: &mut F, file: u32) -> Result<Movie, ReadFail>
    requires { file < length (F.state folder.old).opened }
    // Where the folder tells the file's bytes, the answer stands for their movie, or is their fault.
    ensures movie { IfSome (opened_at (F.state folder.old) file).bytes
        (λ bytes. Reads file bytes result (stream_movie bytes)) }
    // Each sample is one piece of the file, behind the header of its frame.
    ensures places { IfSome (opened_at (F.state folder.old) file).bytes
        (λ bytes. Gives read_refusal (λ movie. movie) result (stream_places file bytes)) }
    // Whatever the bytes are, the movie is one of sound in the file, and a refusal one of a stream.
    ensures sound { IfOk result (IsSound file (opened_at (F.state folder.old) file).size) }
    ensures refusal { IfErr result (λ fail. IfSome (read_refusal fail) IsStreamRefusal) }
    ensures folder { OnlyReads result (F.state folder.old) (F.state folder.new) }
{
    let size = folder.size(file);
    let buffer = new_buffer(alloc, WINDOW_LEN)?;
    let mut window = Window::new(folder, file, buffer);
    let stream = read_configuration(folder, file, &mut window)?;
    let places = read_places(alloc, folder, file, window, stream)?;
    let movie = sound_movie(alloc, stream, places, file, size)?;
    Ok(movie)
}

/// A buffer of so many bytes.
fn new_buffer(alloc: Global, len: usize) -> Result<Vec<u8>, AllocError>
    ensures { IfOk result (λ buffer. length buffer.items ≡ len) }
{
    vec![in alloc; 0u8; len]
}
