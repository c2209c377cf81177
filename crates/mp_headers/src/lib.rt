//! The header boxes of a movie and of its tracks (ISO/IEC 14496-12, 8.2.2, 8.3.2, 8.4.2, 8.4.3), read in
//! both versions, and written; and `ftyp` (4.3) and the media header (8.4.5), which are only written.
//!
//! Each box is a list of fields in `specs/`, and is pushed by that list, behind its length. Each reader
//! gives the fields from left to right, or the first fault: a body that is too short, a version that
//! isn't read, a timescale of 0, a handler of hints.
#![tactic(auto)]

mod file_type;
mod handler;
mod law;
mod matrix;
mod media_header;
mod media_information;
mod movie_header;
#[cfg(test)]
mod tests;
mod times;
mod track_header;
mod version;

pub use file_type::{ftyp_len, push_ftyp};
pub use handler::{hdlr_len, name_of, push_hdlr, read_hdlr};
pub use law::headers_are_read;
pub use matrix::MATRIX_LEN;
pub use media_header::{Mdhd, mdhd_len, push_mdhd, read_mdhd};
pub use media_information::{media_header_len, push_media_header};
pub use movie_header::{Mvhd, mvhd_len, push_mvhd, read_mvhd};
pub use track_header::{Tkhd, push_tkhd, read_tkhd, tkhd_len};
