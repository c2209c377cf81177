//! The units of an H.264 byte stream, the bits of a unit, and tables of syntax elements (ITU-T
//! H.264, Annex B, 7.2, 7.3 and 9.1).
//!
//! A stream is refused where bytes between units are neither zeros nor a start code, where a unit is
//! empty, and where one is longer than 16,777,216 bytes. What a table says of bits, or why it says
//! nothing, is up to the crate that writes it.
#![tactic(auto)]

mod bits;
mod elements;
mod emulation;
mod law;
mod piece;
mod reader;
mod search;
mod window;

pub use bits::Bits;
pub use elements::ElementFail;
pub use emulation::clean;
pub use law::{
    elements_in_turn, fronts_are_cleaned, fronts_suffice, tables_are_read, tables_in_turn,
    units_or_fault,
};
pub use reader::{UnitFail, UnitReader, UnitSpan};

#[cfg(test)]
mod tests;
