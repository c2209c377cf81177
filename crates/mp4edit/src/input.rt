// The movie of an option's input, opened and read.
ghost use Rattle.std.specs.Prelude.{◌≡◌, ◌-◌, ◌<◌, ◌^◌, ⊤, false, length, IfOk, IfSome};
ghost use Rattle.mp_ports.specs.Folder.{opened_at};
ghost use Rattle.mp_ports.specs.Reading.{OnlyReads};
ghost use Rattle.mp_movie.specs.StandsFor.{Hold, Reads};
ghost use Rattle.mp_pieces.specs.Copied.{sizes_of};
ghost use Rattle.mp_words.specs.Jobs.{IsRate};
ghost use Rattle.mp_words.specs.Names.{kind_of};
ghost use Rattle.mp4edit.specs.Names.{held_name, input_names, is_nhnt};
ghost use Rattle.mp4edit.specs.Outcome.{file_input, input, picture_rate, read_as};
ghost use Rattle.avc_import.specs.Movie.{IsRate as IsPictureRate, LiesIn};
ghost use Rattle.mp4edit.specs.Reading.{Gives, OpensFiles};

use crate::opening::find_for;
use crate::pair::read_pair;
use crate::stop::{Stop, of_read};
use adts_import::import_adts;
use avc_import::{Rate as PictureRate, import_avc};
use mp_movie::Movie;
use mp_ports::{Folder, ReadFail};
use mp_read::read_movie;
use mp_words::{FileKind, Rate, kind_of};
use std::alloc::Global;

/// The movie of the input of that name, for the option of that number.
pub fn read_input<F: Folder>(
    alloc: Global,
    folder: &mut F,
    name: &str,
    rate: Option<Rate>,
    command: u32,
) -> Result<Movie, Stop>
    requires opened { length (F.state folder.old).opened < 2 ^ 32 - 3 }
    requires rate { IsRate rate }
    ensures movie { IfSome (F.state folder.old).held (λ files.
        Gives (λ movie. movie) result (F.state folder.new) (input files command name.now rate)) }
    ensures held { IfOk result (Hold (sizes_of (F.state folder.new))) }
    ensures folder { OpensFiles result (input_names name.now) 3 (is_nhnt (kind_of name.now) ≡ false)
        (F.state folder.old) (F.state folder.new) }
{
    if is_nhnt(name) {
        return read_pair(alloc, folder, name, command);
    }
    read_file(alloc, folder, name, rate, command)
}

/// The name is that of an NHNT table.
fn is_nhnt(name: &str) -> bool
    ensures { result ≡ is_nhnt (kind_of name.now) }
{
    matches!(kind_of(name), Some(FileKind::Nhnt))
}

/// The movie of the one file of that name.
pub fn read_file<F: Folder>(
    alloc: Global,
    folder: &mut F,
    name: &str,
    rate: Option<Rate>,
    command: u32,
) -> Result<Movie, Stop>
    requires opened { length (F.state folder.old).opened < 2 ^ 32 - 1 }
    requires rate { IsRate rate }
    ensures movie { IfSome (F.state folder.old).held (λ files.
        Gives (λ movie. movie) result (F.state folder.new) (file_input files command name.now rate)) }
    ensures held { IfOk result (Hold (sizes_of (F.state folder.new))) }
    ensures folder { OpensFiles result (held_name name.now) 1 ⊤ (F.state folder.old) (F.state folder.new) }
{
    let file = match find_for(folder, name, command) {
        Ok(file) => file,
        Err(stop) => return Err(stop),
    };
    match read_opened(alloc, folder, file, kind_of(name), rate) {
        Ok(movie) => Ok(movie),
        Err(fail) => Err(of_read(fail, command)),
    }
}

/// The movie of an opened file of that kind.
fn read_opened<F: Folder>(
    alloc: Global,
    folder: &mut F,
    file: u32,
    kind: Option<FileKind>,
    rate: Option<Rate>,
) -> Result<Movie, ReadFail>
    requires opened { file < length (F.state folder.old).opened }
    requires rate { IsRate rate }
    ensures movie { IfSome (opened_at (F.state folder.old) file).bytes (λ bytes.
        Reads file bytes result (read_as kind rate bytes)) }
    ensures lies { IfOk result (LiesIn file (opened_at (F.state folder.old) file).size) }
    ensures folder { OnlyReads result (F.state folder.old) (F.state folder.new) }
{
    match kind {
        Some(FileKind::Adts) => import_adts(alloc, folder, file),
        Some(FileKind::Avc) => import_avc(alloc, folder, file, picture_rate(rate)),
        _ => read_movie(alloc, folder, file),
    }
}

/// The rate of the pictures of a stream of H.264.
fn picture_rate(rate: Option<Rate>) -> Option<PictureRate>
    requires { IsRate rate }
    ensures rate { result ≡ picture_rate rate }
    ensures some { IfSome result IsPictureRate }
{
    match rate {
        Some(rate) => Some(PictureRate {
            num: rate.num,
            den: rate.den,
        }),
        None => None,
    }
}
