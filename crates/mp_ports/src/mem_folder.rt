//! A folder in memory, whose calls fail where they are told to.

ghost use Rattle.std.specs.Prelude.{◌≡◌, ◌+◌, ◌-◌, ◌^◌, ◌<◌, ◌≤◌, ◌↔◌, ◌⊎◌, [], length, Some, None, string_bytes, true};
ghost use Rattle.std.specs.Prelude.{IsTrue, IsOk, IsErr, IfOk, OnOk, OnErr, IsErrOf, IsSome, IsSomeAnd};
ghost use Rattle.mp_ports.specs.Folder.{Opens, Misses, FailsToRead, ReadsFrom, opened_at};
ghost use Rattle.mp_ports.specs.Folder.{Creates, IsWriting, Appends, FailsToAppend, Finishes, FailsToWrite};
ghost use Rattle.mp_ports.specs.Calls.{called, FailsNext};
ghost use Rattle.mp_ports.specs.Memory.{Counts, half_of};
ghost use Rattle.mp_ports.specs.Told.{followed_by};

use crate::calls::Calls;
use crate::count::raise;
use crate::mem_file::place_of;
use crate::{Folder, MemFile, NoMemory, OpenFail, PortFault};
use std::alloc::Global;
use std::marker::Model;

/// A folder in memory: it tells what it holds and what is written, and the calls that it is told
/// to fail do fail.
///
/// Its calls of `open`, `read_at`, `create`, `append` and `finish` are counted together from 1.
#[derive(Drop)]
pub struct MemFolder {
    files: Vec<MemFile>,
    calls: Calls,
    opened: Vec<usize>,
    output: Option<MemOutput>,
    written: Vec<u8>,
    read_faults: u64,
    write_faults: u64,
    misses: u64,
}

#[derive(Drop)]
struct MemOutput {
    name: String,
    finished: bool,
}

impl Model for MemOutput {
    ghost use Rattle.std.specs.Prelude.{string_bytes};
    ghost use Rattle.mp_ports.specs.Folder.{Output};

    ghost Value = { Output };

    ghost view = { λ o. record { name = string_bytes o.name; finished = o.finished } };
}

impl Model for MemFolder {
    ghost use Rattle.std.specs.Prelude.{◌<◌, ◌-◌, Some, map, length, All, vec_len, vec_capacity};
    ghost use Rattle.mp_ports.specs.Memory.{MemState, opened_file};

    ghost Value = { MemState };

    ghost view = { λ s. record {
      folder = record {
        held = Some s.files.items;
        opened = map (opened_file s.files.items) s.opened.items;
        output = s.output;
        written = Some s.written.items;
        read_faults = s.read_faults;
        write_faults = s.write_faults;
        misses = s.misses;
      };
      calls = s.calls;
      room = vec_capacity s.written - vec_len s.written;
    } };

    ghost invariant = { λ s. All (λ at. at < length s.files.items) s.opened.items };
}

impl MemFolder {
    /// A folder that holds these files, and whose calls of these numbers fail.
    ///
    /// Nothing is opened, nothing is created, and all counts are 0. It takes no memory.
    pub fn new(alloc: Global, files: Vec<MemFile>, failing: Vec<u64>) -> Self
        ensures { result ≡ record {
          folder = record {
            held = Some files.items;
            opened = [];
            output = None;
            written = Some [];
            read_faults = 0;
            write_faults = 0;
            misses = 0;
          };
          calls = record { count = 0; failing = failing.items };
          room = 0;
        } }
    {
        MemFolder {
            files,
            calls: Calls::new(failing),
            opened: Vec::new(alloc),
            output: None,
            written: Vec::new(alloc),
            read_faults: 0,
            write_faults: 0,
            misses: 0,
        }
    }

    /// Makes room for that many further written bytes, and changes nothing else.
    ///
    /// `NoMemory` only where the room that there was is less.
    pub fn reserve(&mut self, more: usize) -> Result<(), NoMemory>
        ensures ok { OnOk result (more ≤ self.new.room) }
        ensures err { OnErr result (self.new ≡ self.old) }
        ensures enough { more ≤ self.old.room → IsOk result }
        ensures grows { self.old.room ≤ self.new.room }
        ensures same { self.new ≡ record self.old { room = self.new.room } }
    {
        self.written.reserve(more)?;
        Ok(())
    }

    /// The written bytes.
    pub fn written(&self) -> &[u8]
        ensures { self.now.folder.written ≡ Some result.now }
    {
        &self.written
    }

    /// Whether a file was created.
    pub fn created(&self) -> bool
        ensures { IsTrue result ↔ IsSome self.now.folder.output }
    {
        self.output.is_some()
    }

    /// Whether a file was created and finished.
    pub fn finished(&self) -> bool
        ensures { IsTrue result ↔ IsSomeAnd self.now.folder.output (λ out. out.finished ≡ true) }
    {
        match &self.output {
            None => false,
            Some(output) => output.finished,
        }
    }
}

impl Folder for MemFolder {
    ghost state = { λ s. s.folder };

    fn open(&mut self, name: &str) -> Result<u32, OpenFail>
        requires { length self.old.folder.opened < 2 ^ 32 - 1 }
        ensures opened { IfOk result (λ file. Opens self.old.folder self.new.folder name.now file) }
        ensures missing { IsErrOf result OpenFail.Missing
            → Misses self.old.folder self.new.folder name.now }
        ensures failed { IsErrOf result OpenFail.Failed
            → FailsToRead self.old.folder self.new.folder }
        ensures memory { IsErrOf result OpenFail.NoMemory → self.new.folder ≡ self.old.folder }
        // Whether it is to fail is asked before the name is looked up.
        ensures fails { IsErrOf result OpenFail.Failed ↔ FailsNext self.old.calls }
        ensures counted { Counts self.old self.new }
    {
        if self.calls.fails_next() {
            raise(&mut self.read_faults);
            return Err(OpenFail::Failed);
        }
        let Some(at) = place_of(&self.files, name) else {
            raise(&mut self.misses);
            return Err(OpenFail::Missing);
        };
        let file = self.opened.len() as u32;
        if self.opened.push(at).is_err() {
            return Err(OpenFail::NoMemory);
        }
        Ok(file)
    }

    fn size(&self, file: u32) -> u64 {
        self.files[self.opened[file as usize]].bytes.len() as u64
    }

    fn read_at(&mut self, file: u32, from: u64, into: &mut [u8]) -> Result<(), PortFault>
        requires is_opened { file < length self.old.folder.opened }
        requires in_file { from + length into.old ≤ (opened_at self.old.folder file).size }
        ensures read { OnOk result (ReadsFrom (opened_at self.old.folder file) from into.new) }
        ensures same { OnOk result (self.new.folder ≡ self.old.folder) }
        ensures failed { OnErr result (FailsToRead self.old.folder self.new.folder) }
        ensures fails { IsErr result ↔ FailsNext self.old.calls }
        ensures counted { Counts self.old self.new }
    {
        if self.calls.fails_next() {
            raise(&mut self.read_faults);
            return Err(PortFault);
        }
        let bytes = &self.files[self.opened[file as usize]].bytes;
        let from = from as usize;
        into.copy_from_slice(&bytes[from..from + into.len()]);
        Ok(())
    }

    fn create(&mut self, name: String) -> Result<(), PortFault>
        requires { self.old.folder.output ≡ None }
        ensures created { OnOk result
            (Creates self.old.folder self.new.folder (string_bytes name)) }
        ensures failed { OnErr result (FailsToWrite self.old.folder self.new.folder) }
        ensures fails { IsErr result ↔ FailsNext self.old.calls }
        ensures counted { self.new.calls ≡ called self.old.calls }
        ensures room { self.old.room ≤ self.new.room }
    {
        let output = Some(MemOutput {
            name,
            finished: false,
        });
        if self.calls.fails_next() {
            raise(&mut self.write_faults);
            return Err(PortFault);
        }
        self.output = output;
        self.written.clear();
        Ok(())
    }

    fn append(&mut self, piece: &[u8]) -> Result<(), PortFault>
        requires { IsWriting self.old.folder }
        ensures appended { OnOk result (Appends self.old.folder self.new.folder piece.now) }
        ensures failed { OnErr result (FailsToAppend self.old.folder self.new.folder piece.now) }
        ensures counted { self.new.calls ≡ called self.old.calls }

        // Where it is to fail, half of the piece is written; nothing only where there was no room.
        ensures fails { FailsNext self.old.calls → IsErr result }
        ensures half { FailsNext self.old.calls → length (half_of piece.now) ≤ self.old.room
            → self.new.folder.written ≡ followed_by self.old.folder.written (half_of piece.now) }
        ensures half_or_nothing { FailsNext self.old.calls
            → (self.new.folder.written ≡ followed_by self.old.folder.written (half_of piece.now))
            ⊎ (self.new.folder.written ≡ self.old.folder.written) }

        // Where it isn't, it fails only for want of room and memory, and writes nothing then.
        ensures exact { length piece.now ≤ self.old.room
            → (IsErr result ↔ FailsNext self.old.calls) }
        ensures nothing { IsErr result → ¬ FailsNext self.old.calls
            → self.new.folder.written ≡ self.old.folder.written }
        ensures room { length piece.now ≤ self.old.room
            → self.old.room ≤ self.new.room + length piece.now }
    {
        if self.calls.fails_next() {
            let _ = self.written.extend_from_slice(&piece[..piece.len() / 2]);
            raise(&mut self.write_faults);
            return Err(PortFault);
        }
        if self.written.extend_from_slice(piece).is_err() {
            raise(&mut self.write_faults);
            return Err(PortFault);
        }
        Ok(())
    }

    fn finish(&mut self) -> Result<(), PortFault>
        requires { IsWriting self.old.folder }
        ensures finished { OnOk result (Finishes self.old.folder self.new.folder) }
        ensures failed { OnErr result (FailsToWrite self.old.folder self.new.folder) }
        ensures fails { IsErr result ↔ FailsNext self.old.calls }
        ensures counted { Counts self.old self.new }
    {
        if self.calls.fails_next() {
            raise(&mut self.write_faults);
            return Err(PortFault);
        }
        if let Some(output) = &mut self.output {
            output.finished = true;
        }
        Ok(())
    }
}
