//! Slice headers, read from no more of a unit than they need.

ghost use Rattle.std.specs.Prelude.{◌≡◌, ◌≢◌, ◌+◌, ◌<◌, ◌≤◌, ℕ, true, false, length, slice_index, take, drop, IfOk, IfSome};
ghost use Rattle.mp_ports.specs.Checks.{placed};
ghost use Rattle.mp_ports.specs.Folder.{opened_at};
ghost use Rattle.mp_ports.specs.Gives.{Gives, read_refusal, refusal};
ghost use Rattle.mp_ports.specs.Reading.{OnlyReads};
ghost use Rattle.mp_ports.specs.declared.code.Code.TheVariants.{SliceSyntax};
ghost use Rattle.avc_units.specs.Bits.{bits_of};
ghost use Rattle.avc_units.specs.Table.{SaysCode};
ghost use Rattle.avc_slices.specs.Header.{header};
ghost use Rattle.avc_slices.specs.Unit.{nal_of};
ghost use Rattle.avc_import.specs.Sets.{bits_in, sequence_of, HaveSets};
ghost use Rattle.avc_import.specs.SliceHeader.{slice_in, slice_within};

use crate::front::read_front;
use crate::sets::Sets;
use avc_slices::{Slice, read_slice};
use avc_units::{
    UnitSpan, clean, elements_in_turn, fronts_are_cleaned, fronts_suffice, tables_are_read,
};
use mp_ports::{Bad, Code, Fail, Folder, ReadFail};
use std::alloc::Global;

/// How many bytes of a slice are read at first: most headers are shorter.
const FIRST_READ: u32 = 64;

/// The header of the slice of an opened file that has these bytes, by the sets that stand before it.
///
/// `SetMissing`, `SliceSyntax`, `FieldPicture`, `Marking5` and `Redundant` by its elements.
pub(crate) fn read_coded<F: Folder>(
    alloc: Global,
    folder: &mut F,
    file: u32,
    span: UnitSpan,
    sets: &Sets,
) -> Result<Slice, ReadFail>
    requires opened { file < length (F.state folder.old).opened }
    requires inside { span.from + span.len ≤ (opened_at (F.state folder.old) file).size }
    requires some { 0 < span.len }
    ensures slice { IfSome (opened_at (F.state folder.old) file).bytes (λ bytes.
        Gives read_refusal (λ slice. slice) result
        (placed span.from (slice_in sets.now (take span.len (drop span.from bytes))))) }
    ensures sets { IfOk result (λ _. HaveSets sets.now) }
    ensures folder { OnlyReads result (F.state folder.old) (F.state folder.new) }
{
    fronts_suffice::<Slice>();
    fronts_are_cleaned();
    let mut len = FIRST_READ.min(span.len);
    loop {
        let front = match read_front(alloc, folder, file, span.from, len) {
            Ok(front) => front,
            Err(fail) => return Err(fail),
        };
        match slice_in_front(alloc, span.from, &front, sets) {
            Ok(slice) => return Ok(slice),
            Err(Fail::NoMemory) => return Err(ReadFail::NoMemory),
            Err(Fail::Bad(bad)) => {
                if is_final(bad.code, len, span.len) {
                    return Err(ReadFail::Bad(bad));
                }
            }
        }
        len = longer(len, span.len);
    }
}

/// Whether no longer front of a unit can say more: a failure of the syntax may come from the front's end.
fn is_final(code: Code, len: u32, most: u32) -> bool
    ensures last { result ≡ true → len < most → code ≢ SliceSyntax }
    ensures more { result ≡ false → len < most }
{
    if len >= most {
        return true;
    }
    code != Code::SliceSyntax
}

/// Four times as many bytes of a unit, or all.
fn longer(len: u32, most: u32) -> u32
    requires some { 0 < len }
    requires more { len < most }
    ensures more { len < result }
    ensures inside { result ≤ most }
{
    if len < most / 4 { len * 4 } else { most }
}

/// The header of a slice in a front of its unit, which stands at that place.
fn slice_in_front(alloc: Global, place: u64, front: &[u8], sets: &Sets) -> Result<Slice, Fail>
    requires { 0 < length front.now }
    ensures slice { (n : ℕ) → length (bits_in front.now) < n
        → Gives refusal (λ slice. slice) result (placed place (slice_within n sets.now front.now)) }
    ensures sets { IfOk result (λ _. HaveSets sets.now) }
{
    tables_are_read::<Slice>();
    elements_in_turn::<Slice>();
    let clean = clean(alloc, front)?;
    match slice_by(sets, &clean) {
        Ok(slice) => Ok(slice),
        Err(code) => Err(Fail::Bad(Bad::at(code, place))),
    }
}

/// The header of a slice in these bytes, which are clean.
fn slice_by(sets: &Sets, clean: &[u8]) -> Result<Slice, Code>
    requires { 0 < length clean.now }
    ensures { (n : ℕ) → length (bits_of (drop 1 clean.now)) < n
        → SaysCode SliceSyntax (header n (nal_of (slice_index clean.now 0)) (sequence_of sets.now) sets.now.pictures)
        (bits_of (drop 1 clean.now)) result }
{
    match &sets.sequence {
        Some(sequence) => read_slice(clean, Some(&sequence.fields), &sets.pictures),
        None => read_slice(clean, None, &sets.pictures),
    }
}
