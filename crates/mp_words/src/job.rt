// What a line asks for.
use mp_frac::Frac;
use std::marker::Model;
use track_ops::Choice;

/// So many pictures in so many seconds, both at least 1.
#[derive(Clone, Copy, Debug, PartialEq, Eq)]
pub struct Rate {
    pub num: u32,
    pub den: u32,
}

/// What an option asks for.
#[derive(Drop)]
pub enum What {
    /// Add the chosen tracks of the file. The rate is that of an H.264 stream.
    Add {
        name: String,
        choice: Choice,
        rate: Option<Rate>,
    },
    /// Join the file to the end.
    Cat {
        name: String,
    },
    /// Remove the track of that number.
    Rem {
        number: u32,
    },
    /// Shift a track by so many milliseconds.
    Delay {
        number: u32,
        ms: i32,
    },
    /// Keep what lies from the one time to the other, in seconds.
    Cut {
        from: Frac,
        to: Frac,
    },
    /// Set a track's scale, in ticks a second.
    TrackScale {
        number: u32,
        scale: u32,
    },
    /// Set the movie's scale, in ticks a second.
    MovieScale {
        scale: u32,
    },
    /// Set a track's language, three letters `a` to `z`.
    Lang {
        number: u32,
        letters: [u8; 3],
    },
    /// Enable or disable a track.
    Enabled {
        number: u32,
        on: bool,
    },
}

/// What an option asks for, and the option's number on the line, counted from 1.
#[derive(Drop)]
pub struct Command {
    pub place: u32,
    pub what: What,
}

impl Model for Command {
    ghost use Rattle.mp_words.specs.Jobs.{CommandRecord, asked};

    ghost Value = { CommandRecord };

    ghost view = { λ c. record { place = c.place; what = asked c.what } };
}

/// What is told of a file.
#[derive(Clone, Copy, Debug, PartialEq, Eq)]
pub enum DumpKind {
    Info,
    Timeline,
    Json,
}

/// The job of a line.
#[derive(Drop)]
pub enum Job {
    /// The commands in their order, and the output's name with its option's number. The window is in
    /// milliseconds, and 0 is one window for all.
    Edit {
        commands: Vec<Command>,
        out: String,
        out_command: u32,
        window: u32,
    },
    /// Tell of a file.
    Dump {
        kind: DumpKind,
        name: String,
    },
    /// Generate files of so many pictures.
    Gen {
        n: u32,
    },
}
