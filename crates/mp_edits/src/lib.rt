//! Edit lists: which of a track's media is shown, and when (ISO/IEC 14496-12, 8.6.5 and 8.6.6). They are
//! read, written in the least version, summed, and shifted.
//!
//! A table of the wrong version, of flags that are not 0, or cut off is refused, and so is one whose
//! entries have a media time below −1 or another rate than 1, or that is above a limit.
#![tactic(auto)]

mod entry;
mod law;
mod put;
mod read;
mod segments;
#[cfg(test)]
mod tests;

pub use law::edits_are_read;
pub use put::{edts_len, elst_len, push_edts, push_elst, put_elst};
pub use read::read_elst;
pub use segments::{capped_total, shift, some_start_late, total};
