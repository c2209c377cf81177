//! Sample entries (ISO/IEC 14496-12, 8.5.2) and data references (8.7.2), with the boxes that hold them,
//! read and written; and the entries that are made: of MPEG-4 sound and pictures (ISO/IEC 14496-14, 5.6)
//! and of H.264 pictures (ISO/IEC 14496-15, 5.4.2).
//!
//! An entry that is too short, protected, of no data reference or of data in another file is refused,
//! and so is a table that is cut, of another version, or of another number than that of its boxes.
#![tactic(auto)]

mod avc1;
mod begin;
mod description;
mod descriptor;
mod entry;
mod esds;
mod law;
mod put;
mod reference;
#[cfg(test)]
mod tests;

pub use avc1::avc1_entry;
pub use description::{push_stsd, read_stsd, stsd_len};
pub use entry::read_entry;
pub use esds::EsdsEntry;
pub use law::{descriptions_are_read, entries_are_kept, kept_are_entries, references_are_read};
pub use put::esds_entry;
pub use reference::{dref_len, push_dref, read_dref};
