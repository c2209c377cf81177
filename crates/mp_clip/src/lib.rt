//! The pieces of an edit list in a range of time, with no time rounded (ISO/IEC 14496-12, 8.6.6).
//!
//! [`clip_shape`] says which scales the pieces need, and [`clip`] makes them in ticks of such scales.
#![tactic(auto)]

mod clipping;
mod cut;
mod law;
mod shape;
mod tally;
#[cfg(test)]
mod tests;
mod touching;

pub use clipping::{clip, clip_back};
pub use law::{divisors_give_scales, shapes_can_be_told};
pub use shape::{ClipShape, clip_shape, grown_scale};
pub use tally::common_divisor;
pub use touching::{Span, touched};
