//! The decoder's configuration.

ghost use Rattle.std.specs.Prelude.{◌≡◌, ◌<◌, ◌≤◌, ◌-◌, length, Some, None, IfOk, IfErr, IfSome};
ghost use Rattle.mp_ports.specs.Folder.{opened_at};
ghost use Rattle.mp_ports.specs.Gives.{read_refusal};
ghost use Rattle.mp_ports.specs.Reading.{OnlyReads};
ghost use Rattle.nhnt_import.specs.Fault.{IsPairRefusal, info_fault, most_info};
ghost use Rattle.nhnt_import.specs.Pair.{info_bytes};

use mp_ports::{Bad, Code, Folder, ReadFail};
use std::alloc::{AllocError, Global};

/// The most bytes of an `.info` file.
const MOST_INFO: u64 = 65_536;

/// Which file of a pair the `.info` file is.
const INFO_FILE: u32 = 2;

/// A buffer of so many bytes.
pub(crate) fn new_buffer(alloc: Global, len: usize) -> Result<Vec<u8>, AllocError>
    ensures { IfOk result (λ buffer. length buffer.items ≡ len) }
{
    vec![in alloc; 0u8; len]
}

/// The bytes of an opened file that is read as a whole.
fn read_whole<F: Folder>(alloc: Global, folder: &mut F, file: u32) -> Result<Vec<u8>, ReadFail>
    requires opened { file < length (F.state folder.old).opened }
    requires short { (opened_at (F.state folder.old) file).size ≤ most_info }
    ensures bytes { IfOk result (λ read. IfSome (opened_at (F.state folder.old) file).bytes
        (λ bytes. read.items ≡ bytes)) }
    ensures len { IfOk result (λ read. length read.items ≤ most_info) }
    ensures no_refusal { IfErr result (λ fail. read_refusal fail ≡ None) }
    ensures folder { OnlyReads result (F.state folder.old) (F.state folder.new) }
{
    let len = folder.size(file) as usize;
    let mut bytes = new_buffer(alloc, len)?;
    folder.read_at(file, 0, &mut bytes)?;
    Ok(bytes)
}

/// The bytes of an opened `.info` file; none where there is no such file.
///
/// `NhntHead` where it is longer than 65,536 bytes.
pub(crate) fn read_info<F: Folder>(
    alloc: Global,
    folder: &mut F,
    info: Option<u32>,
) -> Result<Vec<u8>, ReadFail>
    requires { IfSome info (λ file. file < length (F.state folder.old).opened) }
    ensures bytes { IfOk result (λ read. IfSome (info_bytes (F.state folder.old) info)
        (λ bytes. read.items ≡ bytes)) }
    ensures len { IfOk result (λ read. length read.items ≤ most_info) }
    ensures fault { IfErr result (λ fail. IfSome (info_bytes (F.state folder.old) info)
        (λ bytes. IfSome (read_refusal fail) (λ bad. info_fault bytes ≡ Some bad))) }
    ensures refusal { IfErr result (λ fail. IfSome (read_refusal fail) IsPairRefusal) }
    ensures folder { OnlyReads result (F.state folder.old) (F.state folder.new) }
{
    let Some(file) = info else {
        return Ok(Vec::new(alloc));
    };
    if folder.size(file) > MOST_INFO {
        return Err(ReadFail::Bad(too_long()));
    }
    read_whole(alloc, folder, file)
}

/// The refusal of an `.info` file that is too long.
fn too_long() -> Bad
    ensures fault { result ≡ record { code = Code.NhntHead; command = 0; file = 2; place = 0 } }
    ensures refusal { IsPairRefusal result }
{
    Bad {
        code: Code::NhntHead,
        command: 0,
        file: INFO_FILE,
        place: 0,
    }
}
