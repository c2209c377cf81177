//! The tables of times and of sync samples: `stts`, `ctts` and `stss` (ISO/IEC 14496-12, 8.6), read
//! into columns of one item for each sample, and written from them.
//!
//! What is read is the body of a box, version and flags included, and the number of the box's first
//! byte. The first fault of its table is answered at that place: `TableLength` where the body is
//! shorter than version and flags, `BoxVersion` where the version isn't read, `TableLength` where the
//! body is shorter than its fields say, and for `stss` `SyncOrder` where its numbers don't rise or
//! aren't those of samples. More bytes than the fields say are ignored. Memory is taken only for a table that
//! is whole: for the marks of `stss`, one number after another, up to the first that isn't in order.
//!
//! What is written is a whole box behind the bytes that are there, with longest runs. Its length is known
//! before it is written, so that memory is taken once; where there was none, nothing changes. Each writer
//! goes over its column by runs: once to see what the table is like, and once to write it.
#![tactic(auto)]

mod law;
mod marks;
mod runs;
mod sync;
#[cfg(test)]
mod tests;
mod times;

pub use law::tables_are_read;
pub use marks::{push_stss, put_stss, stss_len};
pub use runs::{ctts_len, push_ctts, push_stts, put_ctts, put_stts, stts_len};
pub use sync::read_stss;
pub use times::{read_ctts, read_stts, unfolded};
