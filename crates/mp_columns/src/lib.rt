//! Columns: lists of whole numbers behind one trait.
//!
//! Each column of a sample table is a list of whole numbers: durations, offsets, sizes, sync marks, entry
//! numbers (ISO/IEC 14496-12, 8.6 and 8.7). All that stands above speaks of that list alone, and never of
//! how its items are kept. A column refuses nothing but for want of memory.
#![tactic(auto)]

mod columns;
mod kept;
mod list;
mod run;
mod run_column;
mod search;
mod steps;
mod sums;
#[cfg(test)]
mod tests;
mod walks;

pub use columns::{Column, MOST_ITEMS};
pub use list::ListColumn;
pub use run::{Cursor, Run};
pub use run_column::{Col, RunColumn};
pub use steps::Steps;
