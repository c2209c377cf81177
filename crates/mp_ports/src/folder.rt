//! A folder of files: some are read, and one is written.

ghost use Rattle.std.specs.Prelude.{◌≡◌, ◌+◌, ◌-◌, ◌^◌, ◌<◌, ◌≤◌, length, None, string_bytes};
ghost use Rattle.std.specs.Prelude.{IfOk, OnOk, OnErr, IsErrOf, IfSome};
ghost use Rattle.mp_ports.specs.Folder.{FolderState, Opens, Misses, FailsToRead, ReadsFrom, opened_at};
ghost use Rattle.mp_ports.specs.Folder.{Creates, IsWriting, Appends, FailsToAppend, Finishes, FailsToWrite};

use crate::{OpenFail, PortFault};

/// A folder of files: any number of them are opened and read, and one is created and written.
///
/// What it holds and what is written may be told or not; clauses on bytes hold where it is told.
/// It counts failed reads, failed writes and missing names. An answer raises the one count that is
/// named for it, and what a clause doesn't say to change stays as it was.
pub trait Folder {
    ghost state: { Self → FolderState };

    /// Opens the file of that name, and answers its number: files are numbered from 0 as they are
    /// opened.
    ///
    /// `Missing` where no file has the name, `Failed` where the folder can't say or the file can't
    /// be opened, and `NoMemory`.
    fn open(&mut self, name: &str) -> Result<u32, OpenFail>
        requires { length (state self.old).opened < 2 ^ 32 - 1 }
        ensures opened { IfOk result
            (λ file. Opens (state self.old) (state self.new) name.now file) }
        ensures missing { IsErrOf result OpenFail.Missing
            → Misses (state self.old) (state self.new) name.now }
        ensures failed { IsErrOf result OpenFail.Failed
            → FailsToRead (state self.old) (state self.new) }
        ensures memory { IsErrOf result OpenFail.NoMemory → state self.new ≡ state self.old };

    /// The length of an opened file in bytes, as it was when it was opened.
    fn size(&self, file: u32) -> u64
        requires { file < length (state self.now).opened }
        ensures size { result ≡ (opened_at (state self.now) file).size }
        ensures told { IfSome (opened_at (state self.now) file).bytes
            (λ bytes. result ≡ length bytes) };

    /// Fills `into` with the bytes of an opened file from the place `from` on, all within its size.
    ///
    /// `PortFault` where they couldn't all be read; `into` may then hold any bytes.
    fn read_at(&mut self, file: u32, from: u64, into: &mut [u8]) -> Result<(), PortFault>
        requires is_opened { file < length (state self.old).opened }
        requires in_file { from + length into.old ≤ (opened_at (state self.old) file).size }
        ensures read { OnOk result (ReadsFrom (opened_at (state self.old) file) from into.new) }
        ensures same { OnOk result (state self.new ≡ state self.old) }
        ensures failed { OnErr result (FailsToRead (state self.old) (state self.new)) };

    /// Creates the one file that is written, with no bytes in it.
    ///
    /// `PortFault` where it couldn't be created; nothing is created then.
    fn create(&mut self, name: String) -> Result<(), PortFault>
        requires { (state self.old).output ≡ None }
        ensures created { OnOk result
            (Creates (state self.old) (state self.new) (string_bytes name)) }
        ensures failed { OnErr result (FailsToWrite (state self.old) (state self.new)) };

    /// Writes a piece behind what is written.
    ///
    /// `PortFault` where not all of it could be written; a part from its front may stand then.
    fn append(&mut self, piece: &[u8]) -> Result<(), PortFault>
        requires { IsWriting (state self.old) }
        ensures appended { OnOk result (Appends (state self.old) (state self.new) piece.now) }
        ensures failed { OnErr result (FailsToAppend (state self.old) (state self.new) piece.now) };

    /// Ends the file that is written.
    ///
    /// `PortFault` where that failed; it isn't finished then.
    fn finish(&mut self) -> Result<(), PortFault>
        requires { IsWriting (state self.old) }
        ensures finished { OnOk result (Finishes (state self.old) (state self.new)) }
        ensures failed { OnErr result (FailsToWrite (state self.old) (state self.new)) };
}
