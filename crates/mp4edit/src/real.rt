// The files of the system and its standard output: the trusted edge. They tell nothing of bytes.
mod file;
mod folder;
mod output;
mod part;
mod report;
#[cfg(test)]
mod tests;

pub use folder::RealFolder;
pub use report::RealReport;
