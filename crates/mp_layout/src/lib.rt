//! The file that is written: `ftyp`, `moov` and `mdat` of a movie (ISO/IEC 14496-12, 4.3, 8.2.1 and 8.1.1).
//!
//! `plan_file` makes all that stands in front of the samples' bytes, and takes all memory that is
//! needed: from the chunks of a movie it counts the length of `moov`, finds the fewest tracks that need
//! places of 64 bits, and then writes once. `emit` then appends the file to a folder, and copies the
//! samples' bytes chunk by chunk from their files, through a window.
#![tactic(auto)]

mod heads;
mod law;
mod moov;
mod output;
mod pieces;
mod places;
mod plan;
mod stbl;
mod table;
#[cfg(test)]
mod tests;
mod trak;
mod wide;

pub use law::{file_by_hand_is_written_and_read, file_presents_movie};
pub use output::emit;
pub use plan::{FilePlan, plan_file};
