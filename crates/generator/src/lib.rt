//! Files that are generated: pictures in an NHNT table with their bytes, and sound as an ADTS stream beside
//! them, for any number of pictures; and the line that tells what was made of them.
//!
//! `specs/Files` says each byte of the three files, `specs/Sum` what the sum of a file is. Every call
//! answers `NoMemory` alone.
#![tactic(auto)]

mod files;
mod line;
mod sum;
#[cfg(test)]
mod tests;

pub use files::{media, stream, table};
pub use line::{Counts, generated_line};
pub use sum::sum_of;
