//! The first bytes of a unit.

ghost use Rattle.std.specs.Prelude.{◌≡◌, ◌+◌, ◌<◌, ◌≤◌, length, take, drop, None, IfErr, IfOk, IfSome};
ghost use Rattle.mp_ports.specs.Folder.{opened_at};
ghost use Rattle.mp_ports.specs.Gives.{read_refusal};
ghost use Rattle.mp_ports.specs.Reading.{OnlyReads};

use mp_ports::{Folder, ReadFail};
use std::alloc::{AllocError, Global};

/// So many bytes of an opened file, from that place on.
pub(crate) fn read_front<F: Folder>(
    alloc: Global,
    folder: &mut F,
    file: u32,
    from: u64,
    len: u32,
) -> Result<Vec<u8>, ReadFail>
    requires opened { file < length (F.state folder.old).opened }
    requires inside { from + len ≤ (opened_at (F.state folder.old) file).size }
    ensures bytes { IfOk result (λ front. IfSome (opened_at (F.state folder.old) file).bytes
        (λ bytes. front.items ≡ take len (drop from bytes))) }
    ensures len { IfOk result (λ front. length front.items ≡ len) }
    ensures refusal { IfErr result (λ fail. read_refusal fail ≡ None) }
    ensures folder { OnlyReads result (F.state folder.old) (F.state folder.new) }
{
    let mut front = new_buffer(alloc, len as usize)?;
    match folder.read_at(file, from, &mut front) {
        Ok(()) => Ok(front),
        Err(_) => Err(ReadFail::ReadFault),
    }
}

/// A buffer of so many bytes.
fn new_buffer(alloc: Global, len: usize) -> Result<Vec<u8>, AllocError>
    ensures { IfOk result (λ buffer. length buffer.items ≡ len) }
{
    vec![in alloc; 0u8; len]
}
