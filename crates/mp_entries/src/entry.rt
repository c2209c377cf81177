//! Sample entries as they stand in a file (ISO/IEC 14496-12, 8.5.2).

ghost use Rattle.std.specs.Prelude.{◌≡◌, ◌+◌, ◌<◌, ◌≤◌, ◌^◌, length, Ok, IfOk, false};
ghost use Rattle.mp_ports.specs.Checks.{Checks};
ghost use Rattle.mp_ports.specs.Gives.{Gives, refusal};
ghost use Rattle.mp_boxes.specs.declared.head.TopHead.{TopHead};
ghost use Rattle.mp_boxes.specs.Head.{IsWhole, head_at, box_head};
ghost use Rattle.mp_entries.specs.Entry.{IsEntry, is_protected};
ghost use Rattle.mp_entries.specs.Kept.{entry_fault, kept_entry, with_first_reference};

use crate::law::head_stays;
use mp_boxes::{BoxHead, next_box, u16_in};
use mp_ports::{Bad, Code, Fail};
use std::alloc::{AllocError, Global};

/// The head of the one box.
fn whole_head(bytes: &[u8], base: u64) -> BoxHead
    requires whole { IsWhole bytes.now }
    requires place { base + length bytes.now < 2 ^ 64 }
    ensures { (head : TopHead) → head_at false bytes.now ≡ Ok head → result ≡ box_head 0 head }
{
    match next_box(bytes, 0, base) {
        Ok(Some(head)) => head,
        _ => unreachable!(),
    }
}

/// Whether entries of that type are protected (8.12).
fn is_protected(kind: [u8; 4]) -> bool
    ensures { result ≡ is_protected kind }
{
    kind == *b"encv" || kind == *b"enca" || kind == *b"enct" || kind == *b"encs"
}

/// What is wrong with an entry of that type whose body begins at `from`.
fn check_entry(kind: [u8; 4], from: usize, bytes: &[u8], local: &[bool]) -> Result<(), Code>
    requires { from + 8 < 2 ^ 64 }
    ensures { Checks result (entry_fault kind from bytes.now local.now) }
{
    if bytes.len() < from + 8 {
        return Err(Code::TableLength);
    }
    if is_protected(kind) {
        return Err(Code::Encrypted);
    }
    let index = usize::from(u16_in(bytes, from + 6));
    if index == 0 || index > local.len() {
        return Err(Code::EntryIndex);
    }
    if !local[index - 1] {
        return Err(Code::External);
    }
    Ok(())
}

/// The same entry with data reference 1, where its body begins at `from`.
fn with_first_reference(alloc: Global, bytes: &[u8], from: usize) -> Result<Vec<u8>, AllocError>
    requires { from + 8 ≤ length bytes.now }
    ensures { IfOk result (λ entry. entry.items ≡ with_first_reference from bytes.now) }
{
    let index = from + 6;
    let mut entry = Vec::from_slice(alloc, bytes)?;
    entry[index..index + 2].copy_from_slice(&1u16.to_be_bytes());
    Ok(entry)
}

/// The entry in the box at `base`, with data reference 1. `local` tells which of the data references
/// are in the file.
///
/// In this order: `TableLength` where its body has fewer than 8 bytes, `Encrypted` where it is
/// protected, `EntryIndex` where it has no data reference, `External` where that is not in the file.
pub fn read_entry(alloc: Global, bytes: &[u8], base: u64, local: &[bool]) -> Result<Vec<u8>, Fail>
    requires whole { IsWhole bytes.now }
    requires place { base + length bytes.now < 2 ^ 64 }
    ensures kept { Gives refusal (λ entry. entry.items) result (kept_entry base bytes.now local.now) }
    ensures well_formed { IfOk result (λ entry. IsEntry entry.items) }
{
    let head = whole_head(bytes, base);
    if let Err(code) = check_entry(head.kind, head.head, bytes, local) {
        return Err(Bad::at(code, base).into());
    }
    head_stays();
    let entry = with_first_reference(alloc, bytes, head.head)?;
    Ok(entry)
}
