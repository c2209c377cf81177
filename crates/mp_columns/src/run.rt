//! Runs of equal items, and the place from which they are read.

ghost use Rattle.std.specs.Prelude.{◌≡◌};

use std::marker::Model;

/// Equal items in a row.
#[derive(Clone, Copy, Debug, PartialEq, Eq)]
pub struct Run {
    /// Each of the items.
    pub value: i64,
    /// How many they are.
    pub count: u32,
}

/// A place in a column, from which its runs are read: how many items stand before it.
///
/// It remembers by which run a column came to it, so that the next one isn't looked for.
#[derive(Drop)]
pub struct Cursor {
    place: u32,
    run: u32,
}

impl Model for Cursor {
    ghost use Rattle.std.specs.Prelude.{ℕ};

    ghost Value = { ℕ };

    ghost view = { λ cursor. cursor.place };
}

impl Cursor {
    /// Before item `place`; 0 is the front of the column.
    pub fn at(place: u32) -> Cursor
        ensures { result ≡ place }
    {
        Cursor { place, run: 0 }
    }

    /// Before item `place`, where the run before which there are `run` is likely to begin.
    pub(crate) fn near(place: u32, run: u32) -> Cursor
        ensures { result ≡ place }
    {
        Cursor { place, run }
    }

    /// The run that is likely to begin there.
    pub(crate) fn run(&self) -> u32 {
        self.run
    }

    /// How many items stand before it.
    pub fn place(&self) -> u32
        ensures { result ≡ self.now }
    {
        self.place
    }
}
