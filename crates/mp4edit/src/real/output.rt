// The file that is written: a part beside its name, until it is whole.
ghost use Rattle.std.specs.Prelude.{◌≡◌, false, true, OnErr, IfOk, string_bytes};

use super::file::above_streams;
use super::part::{PARTS, part_name};
use std::fs::{OpenFile, OpenOptions, Permissions};
use std::io::{ErrorKind, Write};
use std::marker::Model;
use std::os::unix::fs::{MetadataExt, OpenOptionsExt, PermissionsExt};
use std::rt::Files;
use std::{fs, io};

// The bits of a mode that say who may read, write and run.
const PERMISSIONS: u32 = 0o777;

/// The file that is written. Where it is dropped before it is finished, its part is removed.
pub struct RealOutput<'a, R: Files> {
    rt: &'a R,
    name: String,
    finished: bool,
    // The number of the part that is written; none where the file of the name itself is.
    part: Option<u32>,
    file: R::File,
}

impl<'a, R: Files> Model for RealOutput<'a, R> {
    ghost use Rattle.std.specs.Prelude.{string_bytes};
    ghost use Rattle.mp_ports.specs.Folder.{Output};

    ghost Value = { Output };

    ghost view = { λ o. record { name = string_bytes o.name; finished = o.finished } };
}

impl<'a, R: Files> RealOutput<'a, R> {
    /// An output of that name, with no bytes in it. It takes no memory from the heap.
    pub fn create(rt: &'a R, name: String) -> io::Result<Self>
        ensures { IfOk result (λ o. o ≡ record { name = string_bytes name; finished = false }) }
    {
        let (file, part) = open_output(rt, name.as_str())?;
        let mut output = RealOutput {
            rt,
            name,
            finished: false,
            part,
            file,
        };
        // Only now, so that a failure removes the part.
        output.file = above_streams(&output.file)?;
        Ok(output)
    }

    /// Writes the piece behind what is written.
    pub fn append(&mut self, piece: &[u8]) -> io::Result<()>
        ensures { self.new ≡ self.old }
    {
        self.file.write_all(piece)
    }

    /// Gives its name to what is written, in one step of the system.
    pub fn finish(&mut self) -> io::Result<()>
        ensures finished { IfOk result (λ _. self.new ≡ record self.old { finished = true }) }
        ensures failed { OnErr result (self.new ≡ self.old) }
    {
        self.file.flush()?;
        if let Some(number) = self.part {
            let part = part_name(self.name.as_str(), number)?;
            fs::rename(self.rt, part.as_str(), self.name.as_str())?;
        }
        self.finished = true;
        Ok(())
    }
}

impl<R: Files> Drop for RealOutput<'_, R> {
    fn drop(self) {
        let RealOutput {
            rt,
            name,
            finished,
            part,
            file: _,
        } = self;
        if let Some(number) = part {
            if !finished {
                let _ = remove_part(rt, name.as_str(), number);
            }
        }
    }
}

fn remove_part<R: Files>(rt: &R, name: &str, number: u32) -> io::Result<()> {
    let part = part_name(name, number)?;
    fs::remove_file(rt, part.as_str())
}

// Opens what stands under the name to write it, which fails where it may not be changed. What isn't
// a plain file, as a device or a pipe, is written as it stands; a plain file, or none, is answered
// by a part beside it.
fn open_output<R: Files>(rt: &R, name: &str) -> io::Result<(R::File, Option<u32>)> {
    let mode = match OpenOptions::new().write(true).open(rt, name) {
        Ok(there) => {
            let metadata = there.metadata()?;
            if !metadata.is_file() {
                return Ok((there, None));
            }
            Some(metadata.mode() & PERMISSIONS)
        }
        Err(e) if e.kind() == ErrorKind::NotFound => None,
        Err(e) => return Err(e),
    };
    let (file, number) = create_part(rt, name, mode)?;
    Ok((file, Some(number)))
}

// Creates the first part whose number is free, with the mode of the file that it replaces.
fn create_part<R: Files>(rt: &R, name: &str, mode: Option<u32>) -> io::Result<(R::File, u32)> {
    let mut options = OpenOptions::new();
    options.write(true).create_new(true);
    if let Some(mode) = mode {
        options.mode(mode);
    }
    for number in 0..PARTS {
        match options.open(rt, part_name(name, number)?.as_str()) {
            Ok(file) => {
                // The mask of the process may have taken bits away; without them fewer may read it.
                if let Some(mode) = mode {
                    let _ = file.set_permissions(Permissions::from_mode(mode));
                }
                return Ok((file, number));
            }
            Err(e) if e.kind() == ErrorKind::AlreadyExists => {}
            Err(e) => return Err(e),
        }
    }
    Err(io::Error::from(ErrorKind::AlreadyExists))
}
