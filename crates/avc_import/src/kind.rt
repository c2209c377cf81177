//! What a unit is.

ghost use Rattle.std.specs.Prelude.{◌≡◌, ◌+◌, ◌<◌, ◌≤◌, true, length, slice_index, take, drop, None, IfErr, IfOk, IfSome};
ghost use Rattle.mp_ports.specs.Checks.{Checks, first_code};
ghost use Rattle.mp_ports.specs.Folder.{opened_at};
ghost use Rattle.mp_ports.specs.Gives.{Gives, read_refusal};
ghost use Rattle.mp_ports.specs.Reading.{OnlyReads};
ghost use Rattle.avc_units.specs.Reader.{unit_at};
ghost use Rattle.avc_import.specs.Sets.{longest_set, with_picture, with_sequence, HaveSets};
ghost use Rattle.avc_import.specs.SliceHeader.{slice_in};
ghost use Rattle.avc_import.specs.Unit.{identified, is_set, kind_checks, of_type, set_unit, slice_unit, type_of, IsCodedBy};

use crate::front::read_front;
use crate::sets::Sets;
use crate::slice::read_coded;
use avc_order::NalUnit;
use avc_units::UnitSpan;
use mp_ports::{Bad, Code, Fail, Folder, ReadFail};
use std::alloc::Global;

/// The longest unit that is read, in bytes.
const LONGEST_UNIT: u32 = 16_777_216;

/// The longest parameter set, which a configuration has behind 16 bits.
const LONGEST_SET: u32 = 65_535;

/// What the unit of an opened file is, by the sets that stand before it; a set is taken in.
///
/// `UnitLimit` where it is too long, `UnitType` where its type is none that a stream may have, and what its elements
/// are refused for.
pub(crate) fn identify<F: Folder>(
    alloc: Global,
    folder: &mut F,
    file: u32,
    span: UnitSpan,
    sets: &mut Sets,
) -> Result<NalUnit, ReadFail>
    requires opened { file < length (F.state folder.old).opened }
    requires inside { span.from + span.len ≤ (opened_at (F.state folder.old) file).size }
    requires some { 0 < span.len }
    ensures unit { IfSome (opened_at (F.state folder.old) file).bytes (λ bytes. Gives read_refusal
        (λ unit. record { unit = unit; sets = sets.new }) result (identified sets.old (unit_at bytes span))) }
    ensures coded { IfOk result (λ unit. IsCodedBy sets.new unit) }
    ensures kept { HaveSets sets.old → HaveSets sets.new }
    ensures folder { OnlyReads result (F.state folder.old) (F.state folder.new) }
{
    let byte = match first_byte(folder, file, span.from) {
        Ok(byte) => byte,
        Err(fail) => return Err(fail),
    };
    match kind_of(byte, span.len) {
        Ok(kind) => of_type(alloc, folder, file, span, sets, kind),
        Err(code) => Err(ReadFail::Bad(Bad::at(code, span.from))),
    }
}

/// What the unit is, which is of that type.
fn of_type<F: Folder>(
    alloc: Global,
    folder: &mut F,
    file: u32,
    span: UnitSpan,
    sets: &mut Sets,
    kind: u8,
) -> Result<NalUnit, ReadFail>
    requires opened { file < length (F.state folder.old).opened }
    requires inside { span.from + span.len ≤ (opened_at (F.state folder.old) file).size }
    requires some { 0 < span.len }
    requires short { is_set kind ≡ true → span.len ≤ longest_set }
    ensures unit { IfSome (opened_at (F.state folder.old) file).bytes (λ bytes. Gives read_refusal
        (λ unit. record { unit = unit; sets = sets.new }) result (of_type sets.old (unit_at bytes span) kind)) }
    ensures coded { IfOk result (λ unit. IsCodedBy sets.new unit) }
    ensures kept { HaveSets sets.old → HaveSets sets.new }
    ensures folder { OnlyReads result (F.state folder.old) (F.state folder.new) }
{
    if kind == 6 {
        return Ok(NalUnit::Sei);
    }
    if kind == 7 {
        return take_sequence(alloc, folder, file, span, sets);
    }
    if kind == 8 {
        return take_picture(alloc, folder, file, span, sets);
    }
    if kind == 9 {
        return Ok(NalUnit::Delimiter);
    }
    if kind == 10 || kind == 11 {
        return Ok(NalUnit::End);
    }
    if kind == 12 {
        return Ok(NalUnit::Filler);
    }
    take_slice(alloc, folder, file, span, sets)
}

/// Takes in the sequence parameter set that the unit is.
fn take_sequence<F: Folder>(
    alloc: Global,
    folder: &mut F,
    file: u32,
    span: UnitSpan,
    sets: &mut Sets,
) -> Result<NalUnit, ReadFail>
    requires opened { file < length (F.state folder.old).opened }
    requires inside { span.from + span.len ≤ (opened_at (F.state folder.old) file).size }
    requires short { span.len ≤ longest_set }
    ensures unit { IfSome (opened_at (F.state folder.old) file).bytes (λ bytes. Gives read_refusal
        (λ unit. record { unit = unit; sets = sets.new }) result
        (set_unit (with_sequence sets.old span.from (take span.len (drop span.from bytes))))) }
    ensures coded { IfOk result (λ unit. IsCodedBy sets.new unit) }
    ensures kept { HaveSets sets.old → HaveSets sets.new }
    ensures folder { OnlyReads result (F.state folder.old) (F.state folder.new) }
{
    let unit = match read_front(alloc, folder, file, span.from, span.len) {
        Ok(unit) => unit,
        Err(fail) => return Err(fail),
    };
    match sets.take_sequence(alloc, span.from, unit) {
        Ok(()) => Ok(NalUnit::Set),
        Err(Fail::Bad(bad)) => Err(ReadFail::Bad(bad)),
        Err(Fail::NoMemory) => Err(ReadFail::NoMemory),
    }
}

/// Takes in the picture parameter set that the unit is.
fn take_picture<F: Folder>(
    alloc: Global,
    folder: &mut F,
    file: u32,
    span: UnitSpan,
    sets: &mut Sets,
) -> Result<NalUnit, ReadFail>
    requires opened { file < length (F.state folder.old).opened }
    requires inside { span.from + span.len ≤ (opened_at (F.state folder.old) file).size }
    requires short { span.len ≤ longest_set }
    ensures unit { IfSome (opened_at (F.state folder.old) file).bytes (λ bytes. Gives read_refusal
        (λ unit. record { unit = unit; sets = sets.new }) result
        (set_unit (with_picture sets.old span.from (take span.len (drop span.from bytes))))) }
    ensures coded { IfOk result (λ unit. IsCodedBy sets.new unit) }
    ensures kept { HaveSets sets.old → HaveSets sets.new }
    ensures folder { OnlyReads result (F.state folder.old) (F.state folder.new) }
{
    let unit = match read_front(alloc, folder, file, span.from, span.len) {
        Ok(unit) => unit,
        Err(fail) => return Err(fail),
    };
    match sets.take_picture(alloc, span.from, unit) {
        Ok(()) => Ok(NalUnit::Set),
        Err(Fail::Bad(bad)) => Err(ReadFail::Bad(bad)),
        Err(Fail::NoMemory) => Err(ReadFail::NoMemory),
    }
}

/// The slice that the unit is.
fn take_slice<F: Folder>(
    alloc: Global,
    folder: &mut F,
    file: u32,
    span: UnitSpan,
    sets: &Sets,
) -> Result<NalUnit, ReadFail>
    requires opened { file < length (F.state folder.old).opened }
    requires inside { span.from + span.len ≤ (opened_at (F.state folder.old) file).size }
    requires some { 0 < span.len }
    ensures unit { IfSome (opened_at (F.state folder.old) file).bytes (λ bytes. Gives read_refusal
        (λ unit. record { unit = unit; sets = sets.now }) result
        (slice_unit sets.now span.from (slice_in sets.now (take span.len (drop span.from bytes))))) }
    ensures coded { IfOk result (λ unit. IsCodedBy sets.now unit) }
    ensures folder { OnlyReads result (F.state folder.old) (F.state folder.new) }
{
    match read_coded(alloc, folder, file, span, sets) {
        Ok(slice) => Ok(NalUnit::Coded(slice, sets.poc_type())),
        Err(fail) => Err(fail),
    }
}

/// The type of a unit of that length which begins with that byte.
fn kind_of(byte: u8, len: u32) -> Result<u8, Code>
    ensures checks { Checks result (first_code (kind_checks byte len)) }
    ensures kind { IfOk result (λ kind. kind ≡ type_of byte) }
    ensures short { IfOk result (λ kind. is_set kind ≡ true → len ≤ longest_set) }
{
    let kind = byte % 32;
    if len > LONGEST_UNIT {
        return Err(Code::UnitLimit);
    }
    if (kind == 7 || kind == 8) && len > LONGEST_SET {
        return Err(Code::UnitLimit);
    }
    if byte >= 128 || !(kind == 1 || (5 <= kind && kind <= 12)) {
        return Err(Code::UnitType);
    }
    Ok(kind)
}

/// The byte of an opened file at that place.
fn first_byte<F: Folder>(folder: &mut F, file: u32, from: u64) -> Result<u8, ReadFail>
    requires opened { file < length (F.state folder.old).opened }
    requires inside { from + 1 ≤ (opened_at (F.state folder.old) file).size }
    ensures byte { IfOk result (λ byte. IfSome (opened_at (F.state folder.old) file).bytes
        (λ bytes. byte ≡ slice_index (take 1 (drop from bytes)) 0)) }
    ensures refusal { IfErr result (λ fail. read_refusal fail ≡ None) }
    ensures told { IfSome (opened_at (F.state folder.old) file).bytes
        (λ bytes. (opened_at (F.state folder.old) file).size ≡ length bytes) }
    ensures folder { OnlyReads result (F.state folder.old) (F.state folder.new) }
{
    let _size = folder.size(file);
    let mut front = [0u8; 1];
    match folder.read_at(file, from, &mut front) {
        Ok(()) => Ok(front[0]),
        Err(_) => Err(ReadFail::ReadFault),
    }
}
