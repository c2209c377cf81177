//! Pictures of an H.264 stream and the order in which they are shown: where an access unit and its picture start (ITU-T
//! H.264, 7.4.1.2.3 and 7.4.1.2.4), the counts of pictures (8.2.1), their ranks in their sequence, and the least delay
//! with which none is shown before it is decoded.
#![tactic(auto)]

mod access;
mod count;
mod delay;
mod law;
mod picture;
mod rank;
mod sequence;
#[cfg(test)]
mod tests;

pub use access::{AccessUnits, Begins, NalUnit};
pub use count::Counts;
pub use delay::delay_of;
pub use law::{access_units_are_cut, pictures_in_sequences};
pub use picture::starts_picture;
pub use rank::{RankFail, ranks};
