//! The heads of a movie and a track whose source says nothing of them.

ghost use Rattle.std.specs.Prelude.{◌≡◌, IfOk};
ghost use Rattle.mp_timeline.specs.Plain.{plain_movie_head, plain_track_head};

use crate::{MovieHead, TrackHead};
use std::alloc::{AllocError, Global};

/// The matrix that leaves a picture as it is, in 16.16 and 2.30 (ISO/IEC 14496-12, 8.2.2).
const UNIT_MATRIX: [u8; 36] = [
    0, 1, 0, 0, 0, 0, 0, 0, 0, 0, 0, 0, 0, 0, 0, 0, 0, 1, 0, 0, 0, 0, 0, 0, 0, 0, 0, 0, 0, 0, 0, 0,
    0x40, 0, 0, 0,
];

const FULL_VOLUME: u16 = 0x0100;

const UNDETERMINED: u16 = 0x55C4;

impl MovieHead {
    /// The head of a movie whose source has none: no times, the usual rate and volume, no user data.
    pub fn plain(alloc: Global) -> Self
        ensures { result ≡ plain_movie_head }
    {
        MovieHead {
            created: 0,
            modified: 0,
            rate: 0x0001_0000,
            volume: FULL_VOLUME,
            matrix: UNIT_MATRIX,
            udta: Vec::new(alloc),
        }
    }
}

impl TrackHead {
    /// The head of a track whose source has none: enabled, no times, language `und`, an empty name.
    pub fn plain(alloc: Global, handler: [u8; 4]) -> Result<Self, AllocError>
        ensures { IfOk result (λ head. head ≡ plain_track_head handler) }
    {
        Ok(TrackHead {
            flags: 3,
            created: 0,
            modified: 0,
            layer: 0,
            group: 0,
            volume: if handler == *b"soun" { FULL_VOLUME } else { 0 },
            matrix: UNIT_MATRIX,
            width: 0,
            height: 0,
            media_created: 0,
            media_modified: 0,
            language: UNDETERMINED,
            handler,
            name: Vec::from_slice(alloc, &[0])?,
            udta: Vec::new(alloc),
        })
    }
}
