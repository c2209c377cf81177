//! All chunks of a movie.

ghost use Rattle.std.specs.Prelude.{◌≡◌, IfOk};
ghost use Rattle.mp_interleave.specs.Order.{planned};

use crate::chunk::Chunk;
use crate::cursors::ChunkCursors;
use mp_movie::Movie;
use mp_ports::NoMemory;
use std::alloc::Global;
use std::marker::Model;

/// The chunks of a movie in the order of the file.
#[derive(Drop)]
pub struct Plan {
    pub chunks: Vec<Chunk>,
}

impl Model for Plan {
    ghost use Rattle.std.specs.Prelude.{List};
    ghost use Rattle.mp_interleave.specs.declared.chunk.Chunk.{Chunk};

    ghost Value = { List Chunk };

    ghost view = { λ p. p.chunks.items };
}

/// The chunks of the movie in the order of the file, in windows of so many milliseconds; 0 is one window.
pub fn chunk_plan(alloc: Global, movie: &Movie, window: u32) -> Result<Plan, NoMemory>
    ensures { IfOk result (λ plan. plan ≡ planned window movie.now) }
{
    let mut cursors = ChunkCursors::new(alloc, movie, window)?;
    let mut chunks = Vec::new(alloc);
    while let Some(chunk) = cursors.advance(movie) {
        chunks.push(chunk)?;
    }
    Ok(Plan { chunks })
}
