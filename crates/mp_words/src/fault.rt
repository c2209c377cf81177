// What is wrong with a line.
use std::fmt;

/// Why a line is no job, in the order in which it is tried at a word.
#[derive(Clone, Copy, Debug, PartialEq, Eq)]
pub enum WordKind {
    /// There are no words.
    Empty,
    /// The word in an option's place isn't an option.
    Unknown,
    /// Options that can't stand together.
    Mixed,
    /// A second `-out`.
    OutTwice,
    /// The option is the last word, and wants an argument.
    Missing,
    /// The argument isn't as the option wants it.
    Argument,
    /// The line has no `-out`.
    NoOut,
    /// The output is an input too.
    SameName,
    /// The line is a job, and asks for what isn't built yet: no line is answered so here.
    NotYet,
}

impl fmt::Display for WordKind {
    fn fmt<W: fmt::Write>(&self, f: &mut fmt::Formatter<W>) -> fmt::Result {
        f.write_str(match *self {
            WordKind::Empty => "no words",
            WordKind::Unknown => "unknown word",
            WordKind::Mixed => "not together",
            WordKind::OutTwice => "-out twice",
            WordKind::Missing => "argument missing",
            WordKind::Argument => "argument refused",
            WordKind::NoOut => "no -out",
            WordKind::SameName => "output is an input",
            WordKind::NotYet => "not built yet",
        })
    }
}

/// Why the words give no job.
#[derive(Clone, Copy, Debug, PartialEq, Eq)]
pub enum WordFail {
    /// The word of that number, counted from 1, is at fault; 0 is the line.
    Words { word: u32, kind: WordKind },
    NoMemory,
}
