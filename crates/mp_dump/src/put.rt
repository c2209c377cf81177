//! Numbers, types and languages behind a text.

ghost use Rattle.std.specs.Prelude.{◌≡◌, ◌<◌, ◌≤◌, ◌++◌, length, IsAscii, OnOk};
ghost use Rattle.std.specs.Fmt.{signed_decimal};
ghost use Rattle.mp_dump.specs.Words.{entry_type, language_text, letter, printed, type_text};

use itoa::{Buffer, Integer};
use std::alloc::AllocError;

/// A number in decimal digits, with its sign where it is negative.
pub fn put_number<N: Integer>(out: &mut Vec<u8>, number: N) -> Result<(), AllocError>
    ensures { OnOk result (out.new.items ≡ out.old.items ++ N.text number) }
{
    out.extend_from_slice(Buffer::new().format(number).as_bytes())
}

/// Some words, and then a number.
pub fn put_field<N: Integer>(out: &mut Vec<u8>, words: &[u8], number: N) -> Result<(), AllocError>
    ensures { OnOk result (out.new.items ≡ out.old.items ++ (words.now ++ N.text number)) }
{
    out.extend_from_slice(words)?;
    put_number(out, number)
}

/// Some words, and then a number with its sign where it is negative.
pub fn put_signed(out: &mut Vec<u8>, words: &[u8], number: i128) -> Result<(), AllocError>
    ensures { OnOk result (out.new.items ≡ out.old.items ++ (words.now ++ signed_decimal number)) }
{
    put_field(out, words, number)
}

/// The byte, or a dot where it isn't printable.
fn printed(byte: u8) -> u8
    ensures text { result ≡ printed byte }
    ensures ascii { result < 128 }
{
    if byte >= 0x20 && byte <= 0x7E {
        byte
    } else {
        b'.'
    }
}

/// The bytes of a type that are printed for it.
#[tactic(auto, unfolding(crate::specs::Words::type_text))]
pub fn type_text(kind: [u8; 4]) -> [u8; 4]
    ensures text { result ≡ type_text kind }
    ensures ascii { IsAscii result }
{
    [
        printed(kind[0]),
        printed(kind[1]),
        printed(kind[2]),
        printed(kind[3]),
    ]
}

/// The same for the type of a sample entry, which is a whole box.
#[tactic(auto, unfolding(mp_boxes::specs::Number::kind_at))]
pub fn entry_type(entry: &[u8]) -> [u8; 4]
    requires { 8 ≤ length entry.now }
    ensures text { result ≡ entry_type entry.now }
    ensures ascii { IsAscii result }
{
    type_text([entry[4], entry[5], entry[6], entry[7]])
}

/// A small letter by its place in the alphabet, from 1; a dot for any other number.
fn letter(place: u16) -> u8
    ensures text { result ≡ letter place }
    ensures ascii { result < 128 }
{
    if place >= 1 && place <= 26 {
        0x60 + place as u8
    } else {
        b'.'
    }
}

/// The three letters of a language.
#[tactic(auto, unfolding(crate::specs::Words::language_text))]
pub fn language_text(code: u16) -> [u8; 3]
    ensures text { result ≡ language_text code }
    ensures ascii { IsAscii result }
{
    [
        letter(code / 0x400 % 0x20),
        letter(code / 0x20 % 0x20),
        letter(code % 0x20),
    ]
}
