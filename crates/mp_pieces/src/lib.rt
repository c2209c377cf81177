//! Opened files as they are read: through a window, and piece by piece to the output.
//!
//! A [`Window`] holds a part of one file, so that a file of any length is walked with a buffer of any
//! length. A [`Piece`] names bytes of a file, with four bytes in front of them or without; a movie keeps
//! pieces in place of its samples' bytes. [`copy_pieces`] writes their bytes to the output, through a buffer
//! of any length but 0.
#![tactic(auto)]

mod copy;
mod gather;
mod piece;
mod stand;
#[cfg(test)]
mod tests;
mod window;

pub use copy::{EmitFail, copy_pieces};
pub use piece::{Piece, piece_len};
pub use window::Window;
