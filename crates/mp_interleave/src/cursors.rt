//! Chunks in the order of the file, one a call.

use crate::chunk::Chunk;
use crate::next::next_chunk;
use mp_movie::{Movie, parts_can_be_written};
use mp_ports::NoMemory;
use std::alloc::Global;

/// A place between the chunks of a movie, in windows of so many milliseconds: how many chunks are before it,
/// and for each track the number of its first sample that none of these holds.
#[derive(Drop)]
pub struct ChunkCursors {
    pub window: u32,
    pub done: u64,
    pub next: Vec<u32>,
}

impl ChunkCursors {
    ghost use Rattle.std.specs.Prelude.{◌≡◌, ◌↔◌, ◌+◌, IfOk, IfSome, IsNone, length};
    ghost use Rattle.mp_interleave.specs.Order.{keys_in, planned};
    ghost use Rattle.mp_interleave.specs.Place.{IsNext, StandAt};

    /// Before the first chunk.
    pub fn new(alloc: Global, movie: &Movie, window: u32) -> Result<ChunkCursors, NoMemory>
        ensures start { IfOk result (λ cursors. (cursors.window ≡ window) × (cursors.done ≡ 0)) }
        ensures place { IfOk result (λ cursors. StandAt movie.now cursors) }
    {
        let next = vec![in alloc; 1u32; movie.tracks().len()]?;
        Ok(ChunkCursors {
            window,
            done: 0,
            next,
        })
    }

    /// The next chunk, behind which the cursors then stand. `None` where no chunk is left, and then they stay
    /// where they stand. It takes no memory.
    pub fn advance(&mut self, movie: &Movie) -> Option<Chunk>
        requires { StandAt movie.now self.old }
        ensures chunk { IfSome result (λ chunk. IsNext (keys_in self.old.window movie.now.tracks) self.old.done chunk) }
        ensures on { IfSome result (λ _. (self.new.window ≡ self.old.window) × (self.new.done ≡ self.old.done + 1)) }
        ensures place { StandAt movie.now self.new }
        ensures last { IsNone result ↔ (self.old.done ≡ length (planned self.old.window movie.now)) }
        ensures same { IsNone result → self.new ≡ self.old }
    {
        parts_can_be_written();
        let _samples = movie.samples();
        let chunk = next_chunk(movie.tracks(), self.window, self.done, &self.next)?;
        self.next[chunk.track as usize] = chunk.first + chunk.count;
        self.done += 1;
        Some(chunk)
    }
}
