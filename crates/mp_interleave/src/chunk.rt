//! Chunks by the numbers of their samples.

/// Samples of one track that stand in a row: the track's position, counted from 0, the number of the first
/// sample, counted from 1, and how many they are.
#[derive(Clone, Copy, Debug, PartialEq, Eq)]
pub struct Chunk {
    pub track: u32,
    pub first: u32,
    pub count: u32,
}
