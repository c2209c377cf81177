//! NHNT pairs become movies: one track of pictures or sound, one sample a record of the table.
//!
//! A pair is a table, a `.media` file with the bytes of the samples, and maybe an `.info` file with the
//! decoder's configuration. The table is a head of 24 bytes and records of 16 bytes, or of 28 where its
//! places and times have 64 bits. What isn't read is refused at its place: a head that isn't one, streams
//! other than pictures and sound, records that are cut, that are parts of access units, that go back in
//! decode time or that end behind the `.media` file. The table is read through a window, of the `.media`
//! file only the size is asked, and the movie keeps where the samples stand, and none of their bytes.
#![tactic(auto)]

mod columns;
mod entry;
mod head;
mod import;
mod info;
mod movie;
mod number;
mod unit;
mod walk;

pub use import::import_nhnt;

#[cfg(test)]
mod tests;
