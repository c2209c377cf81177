//! A movie is cut to a range of time: exact at both ends, from the sync sample on that the first needed sample
//! stands behind.
//!
//! `specs/Cut` says which movie a cut gives, in the least scales in which its times are whole, and which refusal
//! comes first; `specs/Shows` says what that movie shows at each moment. What a decoder needs from before the
//! range stays, and isn't shown. [`cut`] decides all before it changes anything: a refusal and want of memory give
//! the movie back as it was.
#![tactic(auto)]

mod apply;
mod cutting;
mod explicit;
mod kept;
mod law;
mod limits;
mod plan;
mod reach;
mod shape;
#[cfg(test)]
mod tests;

pub use cutting::cut;
pub use law::{cut_shows_the_range, cuts_are_seen};
