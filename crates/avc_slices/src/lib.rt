//! Slice headers of an H.264 stream (ITU-T H.264, 7.3.3).
//!
//! What is read is a cleaned unit with its first byte, as far as the marking of references. An element
//! that the bits don't hold, or whose value is out of its range, is `SliceSyntax`; the first one in the
//! order of the standard decides. Nothing is kept of what is repeated.
#![tactic(auto)]

mod header;
mod marking;
mod references;
mod slice;
#[cfg(test)]
mod tests;
mod unit;
mod weights;

pub use slice::{Slice, read_slice};
