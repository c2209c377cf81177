// The files of the working folder, and of paths.
ghost use Rattle.std.specs.Prelude.{◌≡◌, [], None};

use super::file::{open_sized, read_exact_from};
use super::output::RealOutput;
use mp_ports::{Folder, OpenFail, PortFault, raise};
use std::alloc::Global;
use std::io::ErrorKind;
use std::marker::Model;
use std::rt::Files;

#[derive(Drop)]
struct RealFile<F: Drop> {
    name: String,
    size: u64,
    file: F,
}

impl<F: Drop> Model for RealFile<F> {
    ghost use Rattle.std.specs.Prelude.{string_bytes, None};
    ghost use Rattle.mp_ports.specs.Folder.{OpenedFile};

    ghost Value = { OpenedFile };

    ghost view = { λ f. record { name = string_bytes f.name; size = f.size; bytes = None } };
}

/// The files of the system, by their paths. What it holds, reads and writes it doesn't tell.
#[derive(Drop)]
pub struct RealFolder<'a, R: Files> {
    rt: &'a R,
    alloc: Global,
    files: Vec<RealFile<R::File>>,
    output: Option<RealOutput<'a, R>>,
    read_faults: u64,
    write_faults: u64,
    misses: u64,
}

impl<'a, R: Files> RealFolder<'a, R> {
    /// A folder with nothing opened, nothing created and no faults. It takes no memory.
    pub fn new(rt: &'a R, alloc: Global) -> Self
        ensures files { result.files.items ≡ [] }
        ensures output { result.output ≡ None }
        ensures faults { (result.read_faults ≡ 0) × (result.write_faults ≡ 0) × (result.misses ≡ 0) }
    {
        RealFolder {
            rt,
            alloc,
            files: Vec::new(alloc),
            output: None,
            read_faults: 0,
            write_faults: 0,
            misses: 0,
        }
    }
}

impl<R: Files> Folder for RealFolder<'_, R> {
    ghost state = { λ s. record {
      held = None;
      opened = s.files.items;
      output = s.output;
      written = None;
      read_faults = s.read_faults;
      write_faults = s.write_faults;
      misses = s.misses;
    } };

    fn open(&mut self, name: &str) -> Result<u32, OpenFail> {
        let Ok(kept) = String::from_str(self.alloc, name) else {
            return Err(OpenFail::NoMemory);
        };
        match open_sized(self.rt, name) {
            Ok((file, size)) => {
                let number = self.files.len() as u32;
                let file = RealFile {
                    name: kept,
                    size,
                    file,
                };
                if self.files.push(file).is_err() {
                    return Err(OpenFail::NoMemory);
                }
                Ok(number)
            }
            Err(e) if e.kind() == ErrorKind::NotFound => {
                raise(&mut self.misses);
                Err(OpenFail::Missing)
            }
            Err(_) => {
                raise(&mut self.read_faults);
                Err(OpenFail::Failed)
            }
        }
    }

    fn size(&self, file: u32) -> u64 {
        let opened = &self.files[file as usize];
        opened.size
    }

    fn read_at(&mut self, file: u32, from: u64, into: &mut [u8]) -> Result<(), PortFault> {
        let opened = &mut self.files[file as usize];
        if read_exact_from(&mut opened.file, from, into).is_err() {
            raise(&mut self.read_faults);
            return Err(PortFault);
        }
        Ok(())
    }

    fn create(&mut self, name: String) -> Result<(), PortFault> {
        match RealOutput::create(self.rt, name) {
            Ok(output) => {
                self.output = Some(output);
                Ok(())
            }
            Err(_) => {
                raise(&mut self.write_faults);
                Err(PortFault)
            }
        }
    }

    fn append(&mut self, piece: &[u8]) -> Result<(), PortFault> {
        let Some(output) = &mut self.output else {
            return Err(PortFault);
        };
        if output.append(piece).is_err() {
            raise(&mut self.write_faults);
            return Err(PortFault);
        }
        Ok(())
    }

    fn finish(&mut self) -> Result<(), PortFault> {
        let Some(output) = &mut self.output else {
            return Err(PortFault);
        };
        if output.finish().is_err() {
            raise(&mut self.write_faults);
            return Err(PortFault);
        }
        Ok(())
    }
}
