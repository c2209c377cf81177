//! Tracks as they are kept: columns of numbers, and pieces of files.

ghost use Rattle.std.specs.Prelude.{◌≡◌, ◌+◌, ◌≤◌, ◌<◌, ◌^◌, length, sum_by, OnOk};
ghost use Rattle.mp_columns.specs.declared.columns.TheConstants.{MOST_ITEMS};
ghost use Rattle.mp_pieces.specs.Piece.{piece_len};
ghost use Rattle.mp_movie.specs.Placed.{empty_track, with_sample};
ghost use Rattle.mp_movie.specs.WholeParts.{AreColumns};

use crate::sums::pieces_len;
use mp_columns::{Col, Column};
use mp_pieces::Piece;
use mp_ports::NoMemory;
use mp_timeline::{EntryBytes, Segment, TrackHead};
use std::alloc::Global;
use std::marker::Model;

/// A track: what it says of itself, a column for each number of its samples in decode order, and the pieces
/// of all samples, one behind the other.
///
/// `scale` is ticks a second. `deltas` are durations and `offsets` composition times less decode times, in
/// these ticks; `syncs` are 1 for sync samples, else 0; `kinds` number the entries from 1; `sizes` are bytes;
/// `counts` say how many of the pieces each sample has. `edits` are `None` where all is shown as it is, and
/// their durations are ticks of the movie.
#[derive(Drop)]
pub struct Track {
    pub number: u32,
    pub head: TrackHead,
    pub scale: u32,
    pub entries: Vec<EntryBytes>,
    pub deltas: Col,
    pub offsets: Col,
    pub syncs: Col,
    pub kinds: Col,
    pub sizes: Col,
    pub counts: Col,
    pub pieces: Vec<Piece>,
    pub edits: Option<Vec<Segment>>,
}

/// The parts of a track that is no movie's yet.
pub type TrackParts = Track;

impl Model for Track {
    ghost use Rattle.std.specs.Prelude.{option_map};
    ghost use Rattle.mp_movie.specs.Placed.{PlacedTrack};

    ghost Value = { PlacedTrack };

    ghost view = { λ t. record {
      number = t.number;
      head = t.head;
      scale = t.scale;
      entries = t.entries.items;
      deltas = t.deltas;
      offsets = t.offsets;
      syncs = t.syncs;
      kinds = t.kinds;
      sizes = t.sizes;
      counts = t.counts;
      pieces = t.pieces.items;
      edits = option_map (λ e. e.items) t.edits;
    } };
}

impl Track {
    /// A track without samples and edits. It takes no memory.
    pub fn new(
        alloc: Global,
        number: u32,
        head: TrackHead,
        scale: u32,
        entries: Vec<EntryBytes>,
    ) -> Self
        ensures empty { result ≡ empty_track number head scale entries.items }
        ensures columns { AreColumns result }
    {
        Track {
            number,
            head,
            scale,
            entries,
            deltas: Col::new(alloc),
            offsets: Col::new(alloc),
            syncs: Col::new(alloc),
            kinds: Col::new(alloc),
            sizes: Col::new(alloc),
            counts: Col::new(alloc),
            pieces: Vec::new(alloc),
            edits: None,
        }
    }

    /// A sample of these pieces follows the others.
    ///
    /// `a_sample_follows` says what then holds of the columns and their samples. After an `Err` the track is
    /// of no use.
    pub fn push_sample(
        &mut self,
        delta: u32,
        offset: i64,
        sync: bool,
        kind: u32,
        pieces: &[Piece],
    ) -> Result<(), NoMemory>
        requires few { length self.old.deltas + 1 ≤ MOST_ITEMS }
        requires columns { AreColumns self.old }
        requires short { sum_by piece_len pieces.now < 2 ^ 63 }
        ensures { OnOk result (self.new ≡ with_sample self.old delta offset sync kind pieces.now) }
    {
        self.deltas.push(i64::from(delta))?;
        self.offsets.push(offset)?;
        self.syncs.push(i64::from(sync))?;
        self.kinds.push(i64::from(kind))?;
        self.sizes.push(pieces_len(pieces) as i64)?;
        self.counts.push(pieces.len() as i64)?;
        self.pieces.extend_from_slice(pieces)?;
        Ok(())
    }
}
