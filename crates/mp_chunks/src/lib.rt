//! The sizes, chunks and places of samples (ISO/IEC 14496-12, 8.7.3 to 8.7.5).
//!
//! A track's samples lie in chunks: `stsz` or `stz2` says how long each sample is, `stsc` how many samples
//! a chunk holds and of which entry, `stco` or `co64` where a chunk begins. Each sample's size, entry and
//! place is read from them, going over each table once, and no list of offsets, chunks or runs is made. A
//! table that is too short, an unknown version, a map that doesn't give each sample its chunk, an unknown
//! entry and a sample behind the end of the file are refused.
//!
//! The boxes of any chunks are written too, each behind a length that is known before its bytes, and what is
//! written is read back.
#![tactic(auto)]

mod chunks;
mod law;
mod places;
mod push;
#[cfg(test)]
mod push_tests;
mod sizes;
mod tables;
#[cfg(test)]
mod tests;
mod walk;

pub use law::{places_are_read, places_change_no_length, tables_give_samples};
pub use places::{Places, find_places, read_places};
pub use push::{
    ChunkHead, chunk_offsets_len, push_chunk_offsets, push_stsc, push_stsz, stsc_len, stsz_len,
};
pub use sizes::sample_count;
pub use tables::Tables;
