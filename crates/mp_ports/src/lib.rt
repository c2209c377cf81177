//! The outside as the editor sees it, and how a call says that it didn't do its work.
//!
//! [`Folder`] is where input files are read and the one output is written, [`Report`] what is said
//! to the user. The editor is generic over both. [`MemFolder`] and [`MemReport`] are in memory,
//! tell all their bytes, and fail where they are told to; the real ones belong to the program.
//!
//! A refusal of an input or a command is a [`Bad`]: a [`Code`], the option, the file and the place
//! in it. [`Fail`] and [`ReadFail`] add want of memory and a failed read, and `?` goes from one to
//! the next. A failure of the outside is a [`PortFault`], and raises a count of the object that
//! failed, so that whoever answers a fault can be asked for its cause.
#![tactic(auto)]

mod calls;
mod code;
mod convert;
mod count;
mod fault;
mod folder;
mod law;
mod mem_file;
mod mem_folder;
mod mem_report;
mod report;
#[cfg(test)]
mod tests;

pub use code::Code;
pub use count::raise;
pub use fault::{Bad, Fail, NoMemory, OpenFail, PortFault, ReadFail};
pub use folder::Folder;
pub use law::appends_follow;
pub use mem_file::MemFile;
pub use mem_folder::MemFolder;
pub use mem_report::MemReport;
pub use report::Report;
