// The movie of an NHNT pair: its table, its `.media` file and, where there is one, its `.info` file.
ghost use Rattle.std.specs.Prelude.{◌≡◌, ◌-◌, ◌<◌, ◌^◌, true, Some, codes, length, string_bytes, IfErr, IfOk, IfSome};
ghost use Rattle.mp_movie.specs.StandsFor.{Hold};
ghost use Rattle.mp_pieces.specs.Copied.{sizes_of};
ghost use Rattle.mp_words.specs.Names.{beside, files_with, kind_of};
ghost use Rattle.mp4edit.specs.Names.{held_names, is_nhnt};
ghost use Rattle.mp4edit.specs.Outcome.{pair_input};
ghost use Rattle.mp4edit.specs.Pair.{IsPair};
ghost use Rattle.mp4edit.specs.Reading.{Gives, GivesNone, OpensFiles};

use crate::opening::{find, find_for};
use crate::stop::{Stop, of_read};
use mp_movie::Movie;
use mp_ports::Folder;
use mp_read::stretches_are_held;
use mp_words::FileKind;
use nhnt_import::import_nhnt;
use std::alloc::{AllocError, Global};

/// The opened files of an NHNT pair, by their numbers.
#[derive(Clone, Copy, Debug, PartialEq, Eq)]
struct Pair {
    table: u32,
    media: u32,
    info: Option<u32>,
}

/// The movie of the pair whose table has that name, for the option of that number.
pub fn read_pair<F: Folder>(
    alloc: Global,
    folder: &mut F,
    name: &str,
    command: u32,
) -> Result<Movie, Stop>
    requires opened { length (F.state folder.old).opened < 2 ^ 32 - 3 }
    requires table { is_nhnt (kind_of name.now) ≡ true }
    ensures movie { IfSome (F.state folder.old).held (λ files.
        Gives (λ movie. movie) result (F.state folder.new) (pair_input files command name.now)) }
    ensures held { IfOk result (Hold (sizes_of (F.state folder.new))) }
    ensures folder { OpensFiles result (held_names (files_with (Some FileKind.Nhnt) name.now)) 3 ⊥
        (F.state folder.old) (F.state folder.new) }
{
    stretches_are_held();
    let pair = match open_pair(alloc, folder, name, command) {
        Ok(pair) => pair,
        Err(stop) => return Err(stop),
    };
    match import_nhnt(alloc, folder, pair.table, pair.media, pair.info) {
        Ok(movie) => Ok(movie),
        Err(fail) => Err(of_read(fail, command)),
    }
}

/// Opens the files of the pair whose table has that name. It may have no `.info` file.
fn open_pair<F: Folder>(
    alloc: Global,
    folder: &mut F,
    name: &str,
    command: u32,
) -> Result<Pair, Stop>
    requires opened { length (F.state folder.old).opened < 2 ^ 32 - 3 }
    requires table { is_nhnt (kind_of name.now) ≡ true }
    ensures pair { IfOk result (IsPair (F.state folder.new) name.now) }
    ensures none { IfErr result (λ stop. IfSome (F.state folder.old).held (λ files.
        GivesNone stop (pair_input files command name.now))) }
    ensures folder { OpensFiles result (held_names (files_with (Some FileKind.Nhnt) name.now)) 3 ⊥
        (F.state folder.old) (F.state folder.new) }
{
    let table = match find_for(folder, name, command) {
        Ok(table) => table,
        Err(stop) => return Err(stop),
    };
    let Ok(media) = beside(alloc, name, ".media") else {
        return Err(Stop::NoMemory);
    };
    let media = match find_for(folder, &media, command) {
        Ok(media) => media,
        Err(stop) => return Err(stop),
    };
    let Ok(info) = beside(alloc, name, ".info") else {
        return Err(Stop::NoMemory);
    };
    match find(folder, &info) {
        Ok(info) => Ok(Pair { table, media, info }),
        Err(stop) => Err(stop),
    }
}

/// The name of the file with that suffix beside an NHNT table of that name.
#[tactic(auto, using(crate::proofs::Suffixes::stem_ends))]
fn beside(alloc: Global, table: &str, suffix: &str) -> Result<String, AllocError>
    requires { is_nhnt (kind_of table.now) ≡ true }
    ensures { IfOk result (λ name. string_bytes name ≡ beside table.now suffix.now) }
{
    let stem = &table[..table.len().saturating_sub(5)];
    let mut name = String::from_str(alloc, stem)?;
    name.push_str(suffix)?;
    Ok(name)
}
