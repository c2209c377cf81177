//! The units of an opened file, one after another.

ghost use Rattle.std.specs.Prelude.{◌≡◌, ◌<◌, length, IfOk};
ghost use Rattle.mp_ports.specs.Folder.{opened_at};
ghost use Rattle.mp_ports.specs.Reading.{OnlyReads};
ghost use Rattle.avc_import.specs.Judged.{Judges};

use crate::kind::identify;
use crate::pictures::Pictures;
use crate::sets::Sets;
use avc_units::{UnitFail, UnitReader};
use mp_ports::{Fail, Folder, ReadFail};
use std::alloc::{AllocError, Global};

/// How many bytes are read at once, to find where a unit ends.
const WINDOW_LEN: usize = 65_536;

/// What is kept of the units: their sets and their pictures.
#[derive(Drop)]
pub(crate) struct Judged {
    pub(crate) sets: Sets,
    pub(crate) pictures: Pictures,
}

/// Reads the units of an opened file, and answers the first that is refused, or what isn't cut into units.
pub(crate) fn read_units<F: Folder>(
    alloc: Global,
    folder: &mut F,
    file: u32,
) -> Result<Judged, ReadFail>
    requires { file < length (F.state folder.old).opened }
    ensures judged { Judges file (opened_at (F.state folder.old) file).size
        (opened_at (F.state folder.old) file).bytes result }
    ensures folder { OnlyReads result (F.state folder.old) (F.state folder.new) }
{
    let size = folder.size(file);
    let mut window = new_window(alloc, WINDOW_LEN)?;
    let mut reader = UnitReader::new(file, size);
    let mut sets = Sets::new(alloc);
    let mut pictures = Pictures::new(alloc);
    loop {
        let span = match reader.next(folder, &mut window) {
            Ok(Some(span)) => span,
            Ok(None) => return Ok(Judged { sets, pictures }),
            Err(UnitFail::Bad(bad)) => return Err(ReadFail::Bad(bad)),
            Err(UnitFail::ReadFault) => return Err(ReadFail::ReadFault),
        };
        let unit = match identify(alloc, folder, file, span, &mut sets) {
            Ok(unit) => unit,
            Err(fail) => return Err(fail),
        };
        match pictures.accept(file, &unit, span) {
            Ok(()) => {}
            Err(Fail::Bad(bad)) => return Err(ReadFail::Bad(bad)),
            Err(Fail::NoMemory) => return Err(ReadFail::NoMemory),
        }
    }
}

/// A buffer of so many bytes.
fn new_window(alloc: Global, len: usize) -> Result<Vec<u8>, AllocError>
    ensures { IfOk result (λ window. length window.items ≡ len) }
{
    vec![in alloc; 0u8; len]
}
