//! The records of a table, each of one access unit.

ghost use Rattle.std.specs.Prelude.{◌≡◌, ◌*◌, ◌+◌, ◌≤◌, ◌<◌, ◌^◌, length, true, IfOk, IfErr};
ghost use Rattle.mp_ports.specs.Checks.{Checks, fault_at};
ghost use Rattle.nhnt_import.specs.Fault.{IsPairRefusal};
ghost use Rattle.nhnt_import.specs.Unit.{has_flag, is_sync, is_whole, number_at, record_len, unit_fault, unit_of};

use crate::number::u24_in;
use mp_boxes::{u32_in, u64_in};
use mp_ports::{Bad, Code};

/// The flag of a unit with which decoding may begin.
const SYNC: u8 = 0x80;
/// The flag of a record that begins a unit.
const START: u8 = 0x40;
/// The flag of a record that ends a unit.
const END: u8 = 0x20;

/// A record of a table: how many bytes of the `.media` file the unit has, a byte of flags, where they
/// stand, and when it is composed and decoded.
#[derive(Clone, Copy, Debug, PartialEq, Eq)]
pub(crate) struct AccessUnit {
    pub(crate) len: u32,
    pub(crate) flags: u8,
    pub(crate) from: u64,
    pub(crate) composition: u64,
    pub(crate) decode: u64,
}

/// The length of a record, by whether its places and times have 64 bits.
pub(crate) fn record_len(wide: bool) -> usize
    ensures len { result ≡ record_len wide }
    ensures some { 16 ≤ result }
    ensures fits { result ≤ 28 }
{
    if wide { 28 } else { 16 }
}

/// One of the three numbers of a record: its place, composition and decode time.
fn number_in(record_bytes: &[u8], wide: bool, k: usize) -> u64
    requires order { k < 3 }
    requires whole { record_len wide ≤ length record_bytes.now }
    ensures value { result ≡ number_at wide record_bytes.now k }
{
    if wide {
        u64_in(record_bytes, 4 + k * 8)
    } else {
        u64::from(u32_in(record_bytes, 4 + k * 4))
    }
}

/// The record at the front of these bytes.
pub(crate) fn unit_in(bytes: &[u8], wide: bool) -> AccessUnit
    requires { record_len wide ≤ length bytes.now }
    ensures unit { result ≡ unit_of wide bytes.now }
    ensures len { result.len < 2 ^ 24 }
{
    AccessUnit {
        len: u24_in(bytes, 0),
        flags: bytes[3],
        from: number_in(bytes, wide, 0),
        composition: number_in(bytes, wide, 1),
        decode: number_in(bytes, wide, 2),
    }
}

impl AccessUnit {
    /// A bit of the flags, by its value.
    fn has_flag(&self, flag: u8) -> bool
        requires { 0 < flag }
        ensures { result ≡ has_flag self.now flag }
    {
        self.flags / flag % 2 == 1
    }

    /// Decoding may begin with this unit.
    pub(crate) fn is_sync(&self) -> bool
        ensures { result ≡ is_sync self.now }
    {
        self.has_flag(SYNC)
    }

    /// The record begins a unit and ends it.
    fn is_whole(&self) -> bool
        ensures { result ≡ is_whole self.now }
    {
        self.has_flag(START) && self.has_flag(END)
    }
}

/// Tests the record at `place`, where the `.media` file has `size` bytes and the unit before is decoded at
/// `before`, or there is none and `before` is 0.
///
/// `NhntUnit` where it is a part of a unit, `NhntOrder` where it is decoded before the one before it,
/// `NhntRange` where its bytes end behind the `.media` file.
#[tactic(auto, unfolding(crate::specs::Unit::unit_fault))]
pub(crate) fn check_unit(unit: &AccessUnit, before: u64, size: u64, place: u64) -> Result<(), Bad>
    ensures fault { Checks result (fault_at place (unit_fault size before unit.now)) }
    ensures order { IfOk result (λ _. before ≤ unit.now.decode) }
    ensures inside { IfOk result (λ _. unit.now.from + unit.now.len ≤ size) }
    ensures refusal { IfErr result IsPairRefusal }
{
    if !unit.is_whole() {
        return Err(Bad::at(Code::NhntUnit, place));
    }
    if unit.decode < before {
        return Err(Bad::at(Code::NhntOrder, place));
    }
    if size < unit.from || size - unit.from < u64::from(unit.len) {
        return Err(Bad::at(Code::NhntRange, place));
    }
    Ok(())
}
