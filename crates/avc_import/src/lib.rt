//! H.264 byte streams become movies (ITU-T H.264, Annex B; ISO/IEC 14496-15, 5): one track of pictures, one sample a
//! picture, shown in the order of their counts.
//!
//! A stream is refused at its first fault: that of the first unit that isn't as its headers say or as the import needs
//! it, then the byte at which it is no longer cut into units, then what is wrong with the whole. One unit at a time is
//! in memory, and of a slice no more than its header needs; the movie keeps where the units stand.
#![tactic(auto)]

mod film;
mod front;
mod import;
mod kind;
mod law;
mod limits;
mod order;
mod pictures;
mod rate;
mod schedule;
mod sets;
mod slice;
mod track;
mod units;

pub use import::import_avc;
pub use law::streams_are_cut;
pub use rate::Rate;

#[cfg(test)]
mod tests;
