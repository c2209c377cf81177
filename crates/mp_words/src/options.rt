// The options of a line.
ghost use Rattle.std.specs.Prelude.{◌≡◌};
ghost use Rattle.mp_words.specs.Options.{option_of, dump_kind, is_gen, is_out, stands_alone};

use crate::job::DumpKind;

/// An option of a line.
#[derive(Clone, Copy, Debug, PartialEq, Eq)]
pub enum LineOption {
    Add,
    Cat,
    Rem,
    Delay,
    SplitChunk,
    TrackScale,
    MovieScale,
    Lang,
    Enable,
    Disable,
    Inter,
    Out,
    Info,
    Timeline,
    Json,
    Gen,
}

/// The option that a word names.
pub fn option_of(word: &str) -> Option<LineOption>
    ensures { result ≡ option_of word.now }
{
    match word {
        "-add" => Some(LineOption::Add),
        "-cat" => Some(LineOption::Cat),
        "-rem" => Some(LineOption::Rem),
        "-delay" => Some(LineOption::Delay),
        "-split-chunk" => Some(LineOption::SplitChunk),
        "-tscale" => Some(LineOption::TrackScale),
        "-mscale" => Some(LineOption::MovieScale),
        "-lang" => Some(LineOption::Lang),
        "-enable" => Some(LineOption::Enable),
        "-disable" => Some(LineOption::Disable),
        "-inter" => Some(LineOption::Inter),
        "-out" => Some(LineOption::Out),
        "-info" => Some(LineOption::Info),
        "-timeline" => Some(LineOption::Timeline),
        "-json" => Some(LineOption::Json),
        "-gen" => Some(LineOption::Gen),
        _ => None,
    }
}

impl LineOption {
    /// What a dump option tells.
    pub fn dump_kind(self) -> Option<DumpKind>
        ensures { result ≡ dump_kind self }
    {
        match self {
            LineOption::Info => Some(DumpKind::Info),
            LineOption::Timeline => Some(DumpKind::Timeline),
            LineOption::Json => Some(DumpKind::Json),
            _ => None,
        }
    }

    /// The option names the output.
    pub fn is_out(self) -> bool
        ensures { result ≡ is_out self }
    {
        matches!(self, LineOption::Out)
    }

    fn is_gen(self) -> bool
        ensures { result ≡ is_gen self }
    {
        matches!(self, LineOption::Gen)
    }

    /// The whole line is this option and its argument.
    pub fn stands_alone(self) -> bool
        ensures { result ≡ stands_alone self }
    {
        self.dump_kind().is_some() || self.is_gen()
    }
}
