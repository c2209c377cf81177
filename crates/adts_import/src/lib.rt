//! Streams of AAC frames behind ADTS headers become movies (ISO/IEC 14496-3, 1.A.3): one track of sound,
//! one sample a frame.
//!
//! The file is frames of one block, one after another up to its end, all of one configuration. The first
//! that isn't is refused at its place, and so are an empty file, and more frames than a movie keeps. It is
//! read through a window; the movie keeps where the payloads stand, and none of their bytes.
#![tactic(auto)]

mod entry;
mod header;
mod import;
mod law;
mod sound;
mod walk;

pub use import::import_adts;
pub use law::each_file_is_a_stream_or_refused;

#[cfg(test)]
mod tests;
