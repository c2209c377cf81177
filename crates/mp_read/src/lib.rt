//! MP4 files are read (ISO/IEC 14496-12): the boxes of `moov` in memory, and a track by its track box.
//!
//! Each check stands where it stands among the checks of a file, and the first that fails is answered with
//! its place in the file. Of the samples, sizes and places are read, and none of their bytes.
#![tactic(auto)]

mod columns;
mod count;
mod edits;
mod file;
mod header;
mod law;
mod moov;
mod movie;
mod parts;
mod read;
mod sample_table;
mod table;
#[cfg(test)]
mod tests;
mod top;
mod track;
mod tracks;

pub use columns::{SampleColumns, read_columns};
pub use count::count_samples;
pub use edits::read_edits;
pub use file::{MOST_MOOV, read_tables};
pub use law::{stretches_are_held, tables_are_parts, tables_fit, tables_stand_for_movies};
pub use moov::Moov;
pub use movie::{MovieTables, read_moov};
pub use parts::parts_of;
pub use read::read_movie;
pub use sample_table::{SampleTable, read_sample_table};
pub use table::{TableParts, find_tables};
pub use track::{TrackTables, read_trak};
pub use tracks::read_tracks;
