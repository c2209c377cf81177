//! One entry of an edit list (ISO/IEC 14496-12, 8.6.6).

ghost use Rattle.std.specs.Prelude.{◌≡◌, ◌≤◌, length};
ghost use Rattle.mp_edits.specs.Entry.{entry_len, entry_of};

use mp_boxes::{u16_in, u32_in, u64_in};
use mp_ports::Code;
use mp_timeline::Segment;

/// An entry as it stands in the table.
///
/// The duration is in ticks of the movie's scale, the media time in ticks of the track's scale.
#[derive(Clone, Copy, Debug, PartialEq, Eq)]
pub struct EditEntry {
    pub duration: u64,
    pub media_time: i64,
    pub rate: u16,
    pub fraction: u16,
}

/// The length of an entry, in bytes.
pub fn entry_len(wide: bool) -> usize
    ensures { result ≡ entry_len wide }
{
    if wide { 20 } else { 12 }
}

/// The entry of a row.
pub fn entry_of(wide: bool, row: &[u8]) -> EditEntry
    requires { entry_len wide ≤ length row.now }
    ensures { result ≡ entry_of wide row.now }
{
    if wide {
        EditEntry {
            duration: u64_in(row, 0),
            media_time: u64_in(row, 8).cast_signed(),
            rate: u16_in(row, 16),
            fraction: u16_in(row, 18),
        }
    } else {
        EditEntry {
            duration: u64::from(u32_in(row, 0)),
            media_time: i64::from(u32_in(row, 4).cast_signed()),
            rate: u16_in(row, 8),
            fraction: u16_in(row, 10),
        }
    }
}

impl EditEntry {
    ghost use Rattle.std.specs.Prelude.{◌≡◌};
    ghost use Rattle.mp_edits.specs.Entry.{is_empty, entry_fault, segment_of};

    /// Whether nothing is shown.
    fn is_empty(&self) -> bool
        ensures { result ≡ is_empty self.now }
    {
        self.media_time == -1
    }

    /// What is wrong with the entry.
    pub fn fault(&self) -> Option<Code>
        ensures { result ≡ entry_fault self.now }
    {
        if self.media_time < -1 {
            return Some(Code::EditTime);
        }
        if !self.is_empty() && (self.rate != 1 || self.fraction != 0) {
            return Some(Code::EditRate);
        }
        None
    }

    /// The segment that the entry describes.
    pub fn segment(&self) -> Segment
        ensures { result ≡ segment_of self.now }
    {
        if self.is_empty() {
            Segment::Empty { dur: self.duration }
        } else {
            Segment::Media {
                start: self.media_time.unsigned_abs(),
                dur: self.duration,
            }
        }
    }
}
