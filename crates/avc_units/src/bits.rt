//! A cursor over the bits of bytes.
ghost use Rattle.std.specs.Prelude.{◌≡◌, ◌-◌, ◌^◌, ◌<◌, ◌≤◌, IfSome};
ghost use Rattle.std.specs.Int.{bit_at};
ghost use Rattle.avc_units.specs.Bits.{bits_of};
ghost use Rattle.avc_units.specs.Bits.Kind.{U, Ue};
ghost use Rattle.avc_units.specs.Reading.{read, read_signed, signed};
ghost use Rattle.avc_units.specs.Cursor.{IsNext, Reads};

use std::marker::Model;

/// The bits of bytes that aren't read yet, the highest bit of a byte first.
#[derive(Drop)]
pub struct Bits<'a> {
    // the bytes that are left, of whose first so many bits were read
    bytes: &'a [u8],
    bit: u32,
}

impl<'a> Model for Bits<'a> {
    ghost use Rattle.std.specs.Prelude.{List, ℕ, drop, ◌<◌};
    ghost use Rattle.avc_units.specs.Bits.{bits_of};

    ghost Value = { List ℕ };

    ghost view = { λ s. drop s.bit (bits_of s.bytes.now) };

    ghost invariant = { λ s. s.bit < 8 };
}

impl<'a> Bits<'a> {
    /// All bits of these bytes.
    pub fn new(bytes: &'a [u8]) -> Bits<'a>
        ensures { result ≡ bits_of bytes.now }
    {
        Bits { bytes, bit: 0 }
    }

    /// The next `n` bits as a number, the highest first: u(n) (H.264, 7.2).
    ///
    /// None where fewer are left.
    pub fn take(&mut self, n: u32) -> Option<u32>
        requires { n ≤ 32 }
        ensures read { Reads (read (U n) self.old) self.old result self.new }
        ensures small { IfSome result (λ v. v < 2 ^ n) }
    {
        let mut ahead = self.from_here();
        let mut value: u64 = 0;
        for _i in 0..n {
            match ahead.next_bit() {
                Some(bit) => value = value * 2 + u64::from(bit),
                None => return None,
            }
        }
        *self = ahead;
        Some(value as u32)
    }

    /// The next Exp-Golomb code: ue(v) (H.264, 9.1).
    ///
    /// None where the bits end before it does, or more than 31 zeros stand in front.
    pub fn ue(&mut self) -> Option<u32>
        ensures read { Reads (read Ue self.old) self.old result self.new }
        ensures small { IfSome result (λ v. v < 2 ^ 32 - 1) }
    {
        let mut ahead = self.from_here();
        let mut zeros: u32 = 0;
        let mut power: u64 = 1;
        while let Some(bit) = ahead.next_bit() {
            if bit == 1 {
                let Some(tail) = ahead.take(zeros) else {
                    return None;
                };
                *self = ahead;
                return Some((power - 1 + u64::from(tail)) as u32);
            }
            if zeros == 31 {
                return None;
            }
            zeros += 1;
            power *= 2;
        }
        None
    }

    /// The next signed Exp-Golomb code: se(v) (H.264, 9.1.1). None as for `ue`.
    pub fn se(&mut self) -> Option<i32>
        ensures { Reads (read_signed self.old) self.old result self.new }
    {
        match self.ue() {
            Some(code) => Some(signed_of(code)),
            None => None,
        }
    }

    fn from_here(&self) -> Bits<'a>
        ensures { result ≡ self.now }
    {
        Bits {
            bytes: self.bytes,
            bit: self.bit,
        }
    }

    fn next_bit(&mut self) -> Option<u32>
        ensures { IsNext self.old result self.new }
    {
        if self.bytes.is_empty() {
            return None;
        }
        let bit = bit_of(self.bytes[0], self.bit);
        if self.bit == 7 {
            self.bytes = &self.bytes[1..];
            self.bit = 0;
        } else {
            self.bit += 1;
        }
        Some(bit)
    }
}

// The bit of a byte, the highest of which is bit 0.
fn bit_of(byte: u8, bit: u32) -> u32
    requires { bit < 8 }
    ensures value { result ≡ bit_at byte (7 - bit) }
    ensures small { result < 2 }
{
    u32::from((byte >> (7 - bit)) & 1)
}

// The signed number that a code stands for.
pub(crate) fn signed_of(code: u32) -> i32
    requires { code < 2 ^ 32 - 1 }
    ensures { result ≡ signed code }
{
    let half = (code / 2) as i32;
    if code % 2 == 1 { half + 1 } else { -half }
}
