//! Access units.
ghost use Rattle.std.specs.Prelude.{◌≡◌, None, is_some};
ghost use Rattle.avc_order.specs.Access.{is_front, is_kept, starts, is_first_slice, slice_behind};

use crate::picture::starts_picture;
use avc_slices::Slice;

/// A unit of a stream, as far as access units ask of it (H.264, table 7-1).
#[derive(Clone, Copy, Debug, PartialEq, Eq)]
pub enum NalUnit {
    /// A slice, of types 1 and 5, and the type of the order counts of its sequence.
    Coded(Slice, u8),
    /// Supplemental enhancement information, of type 6.
    Sei,
    /// A parameter set, of types 7 and 8.
    Set,
    /// An access unit delimiter, of type 9.
    Delimiter,
    /// The end of a sequence or of the stream, of types 10 and 11.
    End,
    /// Filler data, of type 12.
    Filler,
}

impl NalUnit {
    /// Whether the unit is one of its picture's sample: a slice or supplemental information.
    pub fn is_kept(&self) -> bool
        ensures { result ≡ is_kept self.now }
    {
        match self {
            NalUnit::Coded(_, _) | NalUnit::Sei => true,
            _ => false,
        }
    }

    // Behind a slice it starts an access unit, whatever comes next.
    fn is_front(&self) -> bool
        ensures { result ≡ is_front self.now }
    {
        match self {
            NalUnit::Sei | NalUnit::Set | NalUnit::Delimiter => true,
            _ => false,
        }
    }
}

/// What a unit begins.
#[derive(Clone, Copy, Debug, PartialEq, Eq)]
pub struct Begins {
    /// Another access unit than that of the unit before.
    pub access_unit: bool,
    /// A picture: the unit is the first slice of its access unit.
    pub picture: bool,
}

/// Where access units begin, unit by unit in the order of the stream (H.264, 7.4.1.2.3).
///
/// It stands behind the first units of its stream: behind none at first.
#[derive(Clone, Copy)]
pub struct AccessUnits {
    last: Option<Slice>,
}

impl AccessUnits {
    /// No unit stands before. It takes no memory.
    pub fn new() -> AccessUnits
        ensures { result.last ≡ None }
    {
        AccessUnits { last: None }
    }

    /// What the next unit begins. The first unit of all begins no other access unit.
    pub fn next(&mut self, unit: &NalUnit) -> Begins
        ensures access_unit { result.access_unit ≡ starts self.old.last unit.now }
        ensures picture { result.picture ≡ is_first_slice self.old.last unit.now }
        ensures last { self.new.last ≡ slice_behind self.old.last unit.now }
    {
        let begins = Begins {
            access_unit: does_start(self.last, unit),
            picture: is_first_slice(self.last, unit),
        };
        self.last = slice_behind(self.last, unit);
        begins
    }

    /// Whether the access unit that the last unit stands in has a picture. Where the stream ends and it has none, its
    /// units are dropped.
    pub fn has_picture(&self) -> bool
        ensures { result ≡ is_some self.now.last }
    {
        self.last.is_some()
    }
}

fn does_start(last: Option<Slice>, unit: &NalUnit) -> bool
    ensures { result ≡ starts last unit.now }
{
    match (last, unit) {
        (None, _) => false,
        (Some(last), NalUnit::Coded(this, poc_type)) => starts_picture(&last, this, *poc_type),
        (Some(_), _) => unit.is_front(),
    }
}

fn is_first_slice(last: Option<Slice>, unit: &NalUnit) -> bool
    ensures { result ≡ is_first_slice last unit.now }
{
    match (last, unit) {
        (None, NalUnit::Coded(_, _)) => true,
        (Some(last), NalUnit::Coded(this, poc_type)) => starts_picture(&last, this, *poc_type),
        (_, _) => false,
    }
}

fn slice_behind(last: Option<Slice>, unit: &NalUnit) -> Option<Slice>
    ensures { result ≡ slice_behind last unit.now }
{
    match unit {
        NalUnit::Coded(this, _) => Some(*this),
        _ => if unit.is_front() { None } else { last },
    }
}
