//! The order of the samples in the file, and their chunks (ISO/IEC 14496-12, 8.7.4).
//!
//! Samples stand in windows of time, in a window track by track, and in a track as they are decoded. Samples
//! of one window, track and entry that stand in a row are a chunk (`specs/Order`). The order asks nothing of
//! their bytes. [`ChunkCursors`] give one chunk a call, and [`chunk_plan`] all of them; nothing is sorted.
#![tactic(auto)]

mod chunk;
mod cursors;
mod law;
mod next;
mod plan;
#[cfg(test)]
mod tests;
mod times;

pub use chunk::Chunk;
pub use cursors::ChunkCursors;
pub use law::{chunks_by_hand_are_planned, plans_stand_for_chunks, samples_stand_in_chunks};
pub use plan::{Plan, chunk_plan};
