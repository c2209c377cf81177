//! What a movie presents, as text: its tracks in a line each, every sample in a line, or one JSON object.
//!
//! The texts are defined on the movie that a [`Movie`](mp_movie::Movie) stands for, and say nothing of its
//! samples' bytes but how many they are, so that no file is read. They take memory for the text alone.
#![tactic(auto)]

mod info;
mod object;
mod put;
mod row;
#[cfg(test)]
mod tests;
mod timeline;
mod values;

pub use info::info_text;
pub use object::timeline_json;
pub use timeline::timeline_text;
