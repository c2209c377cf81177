//! The movie as plain values: heads, tracks, samples and edits (ISO/IEC 14496-12, 3.1 and 6.2).
#![tactic(auto)]

mod law;
mod movie;
mod plain;
mod segment;

pub use law::sameness_is_equality;
pub use movie::{EntryBytes, MovieHead, PlainMovie, PlainSample, PlainTrack, TrackHead};
pub use segment::Segment;

#[cfg(test)]
mod tests;
