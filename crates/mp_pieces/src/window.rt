// A part of an opened file, held in memory.
ghost use Rattle.std.specs.Prelude.{◌≡◌, ◌+◌, ◌-◌, ◌<◌, ◌≤◌, length, min, take, drop, OnOk, OnErr};
ghost use Rattle.mp_ports.specs.Folder.{FolderState, FailsToRead, ReadsFrom, opened_at};
ghost use Rattle.mp_pieces.specs.Window.{Covers, Fills, IsOf, blank};

use mp_ports::{Folder, PortFault};
use std::marker::Model;

/// A part of an opened file, in a buffer: a file of any length is read through it.
#[derive(Drop)]
pub struct Window {
    file: u32,
    size: u64,
    from: u64,
    len: usize,
    buffer: Vec<u8>,
}

impl Model for Window {
    ghost use Rattle.std.specs.Prelude.{◌+◌, ◌≤◌, length, take};
    ghost use Rattle.mp_pieces.specs.Window.{WindowRecord};

    ghost Value = { WindowRecord };

    ghost view = { λ w. record {
      file = w.file;
      size = w.size;
      from = w.from;
      held = take w.len w.buffer.items;
      room = length w.buffer.items;
    } };

    ghost invariant = { λ w. (w.len ≤ length w.buffer.items) × (w.from + w.len ≤ w.size) };
}

impl Window {
    /// A window of an opened file, which holds nothing yet. As many bytes fit as the buffer has.
    pub fn new<F: Folder>(folder: &F, file: u32, buffer: Vec<u8>) -> Self
        requires { file < length (F.state folder.now).opened }
        ensures blank { result ≡ blank (F.state folder.now) file (length buffer.items) }
        ensures part { IsOf (F.state folder.now) result }
    {
        Window {
            file,
            size: folder.size(file),
            from: 0,
            len: 0,
            buffer,
        }
    }

    /// The size of the file in bytes, as it was when it was opened.
    pub fn size(&self) -> u64
        ensures { result ≡ self.now.size }
    {
        self.size
    }

    /// Lets the window hold so many bytes of the file from the place `at` on.
    ///
    /// It reads only where they aren't held yet, then once, and as many as fit.
    pub fn fill<F: Folder>(
        &mut self,
        folder: &mut F,
        at: u64,
        count: usize,
    ) -> Result<(), PortFault>
        requires part { IsOf (F.state folder.old) self.old }
        requires inside { at + count ≤ self.old.size }
        requires fits { count ≤ self.old.room }
        ensures filled { OnOk result (Fills (F.state folder.new) self.old self.new at count) }
        ensures same { OnOk result (F.state folder.new ≡ F.state folder.old) }
        ensures failed { OnErr result (FailsToRead (F.state folder.old) (F.state folder.new)) }
    {
        if self.from <= at && at + count as u64 <= self.from + self.len as u64 {
            return Ok(());
        }
        self.refill(folder, at)
    }

    /// Lets the window hold as many bytes from `at` on as fit.
    fn refill<F: Folder>(&mut self, folder: &mut F, at: u64) -> Result<(), PortFault>
        requires part { IsOf (F.state folder.old) self.old }
        requires inside { at ≤ self.old.size }
        ensures filled { OnOk result
            (Fills (F.state folder.new) self.old self.new at (min (self.old.size - at) self.old.room)) }
        ensures same { OnOk result (F.state folder.new ≡ F.state folder.old) }
        ensures failed { OnErr result (FailsToRead (F.state folder.old) (F.state folder.new)) }
    {
        let len = lesser(self.size - at, self.buffer.len());
        self.len = 0;
        self.from = at;
        read_front(folder, self.file, at, &mut self.buffer, len)?;
        self.len = len;
        Ok(())
    }

    /// So many bytes of the file from the place `at` on, which the window holds.
    pub fn held(&self, at: u64, count: usize) -> &[u8]
        requires { Covers self.now at count }
        ensures count { length result.now ≡ count }
        ensures bytes { (s : FolderState) → IsOf s self.now → ReadsFrom (opened_at s self.now.file) at result.now }
    {
        let begin = (at - self.from) as usize;
        &self.buffer[begin..begin + count]
    }
}

/// Reads so many bytes of the file from `from` on into the front of `into`.
fn read_front<F: Folder>(
    folder: &mut F,
    file: u32,
    from: u64,
    into: &mut [u8],
    len: usize,
) -> Result<(), PortFault>
    requires opened { file < length (F.state folder.old).opened }
    requires inside { from + len ≤ (opened_at (F.state folder.old) file).size }
    requires room { len ≤ length into.old }
    ensures read { OnOk result (ReadsFrom (opened_at (F.state folder.old) file) from (take len into.new)) }
    ensures len { length into.new ≡ length into.old }
    ensures same { OnOk result (F.state folder.new ≡ F.state folder.old) }
    ensures failed { OnErr result (FailsToRead (F.state folder.old) (F.state folder.new)) }
{
    folder.read_at(file, from, &mut into[..len])
}

/// The lesser of what is left and what fits.
pub(crate) fn lesser(left: u64, room: usize) -> usize
    ensures { result ≡ min left room }
{
    if left < room as u64 {
        left as usize
    } else {
        room
    }
}
