//! One segment of an edit list.

/// A segment of an edit list (ISO/IEC 14496-12, 8.6.6).
///
/// `dur` is in ticks of the movie's scale, `start` in ticks of the track's scale.
#[derive(Clone, Copy, Debug, PartialEq, Eq)]
pub enum Segment {
    /// Nothing is shown for so long.
    Empty { dur: u64 },
    /// The media from `start` on is shown for so long.
    Media { start: u64, dur: u64 },
}
