//! The words of a line, and the job that they name.
//!
//! A line is a list of options, each a word with the word behind it as its argument, read from left to right.
//! A line that names no job is answered by the number of the word at fault, counted from 1, or by 0 where the
//! fault is of the line as a whole, and by what is wrong with it.
#![tactic(auto)]

mod argument;
mod fault;
mod job;
mod line;
mod name;
mod number;
mod options;
#[cfg(test)]
mod tests;
mod text;

pub use fault::{WordFail, WordKind};
pub use job::{Command, DumpKind, Job, Rate, What};
pub use line::read_words;
pub use name::{FileKind, kind_of};
