// The files of an option, opened.
ghost use Rattle.std.specs.Prelude.{◌-◌, ◌<◌, ◌^◌, length};
ghost use Rattle.mp4edit.specs.Opening.{Finds, FindsFor};

use crate::stop::Stop;
use mp_ports::{Folder, OpenFail};

/// Opens the file of that name, if there is one.
pub fn find<F: Folder>(folder: &mut F, name: &str) -> Result<Option<u32>, Stop>
    requires { length (F.state folder.old).opened < 2 ^ 32 - 1 }
    ensures { Finds result (F.state folder.old) (F.state folder.new) name.now }
{
    match folder.open(name) {
        Ok(file) => Ok(Some(file)),
        Err(OpenFail::Missing) => Ok(None),
        Err(OpenFail::Failed) => Err(Stop::ReadFault),
        Err(OpenFail::NoMemory) => Err(Stop::NoMemory),
    }
}

/// Opens the file of that name, which the option of that number needs.
pub fn find_for<F: Folder>(folder: &mut F, name: &str, command: u32) -> Result<u32, Stop>
    requires { length (F.state folder.old).opened < 2 ^ 32 - 1 }
    ensures { FindsFor command result (F.state folder.old) (F.state folder.new) name.now }
{
    match find(folder, name) {
        Ok(Some(file)) => Ok(file),
        Ok(None) => Err(Stop::Missing { command }),
        Err(stop) => Err(stop),
    }
}
