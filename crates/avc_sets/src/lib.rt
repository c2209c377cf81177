//! Parameter sets of an H.264 stream (ITU-T H.264, 7.3.2.1.1, 7.3.2.2 and E.1.1), and the configuration that a sample
//! entry keeps of them (ISO/IEC 14496-15, 5.3.3.1).
//!
//! What is read is a cleaned unit with its first byte, which isn't looked at. An element that the bits don't hold, or
//! whose value is out of its range, is `SetSyntax`; the first one in the order of the standard decides.
#![tactic(auto)]

mod configuration;
mod format;
mod picture;
mod sequence;
mod set;
mod size;
#[cfg(test)]
mod tests;
mod usability;

pub use configuration::make_avcc;
pub use picture::read_pps;
pub use sequence::read_sps;
pub use set::{Pps, Sps};
