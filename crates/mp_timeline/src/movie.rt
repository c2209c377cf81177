//! The movie as plain values.

use crate::Segment;
use std::marker::Model;

/// The head of a movie, from its movie header (ISO/IEC 14496-12, 8.2.2) and its user data (8.10.1).
///
/// `created` and `modified` are seconds since 1904. `udta` is the whole box, or no bytes.
#[derive(Drop)]
pub struct MovieHead {
    pub created: u64,
    pub modified: u64,
    pub rate: u32,
    pub volume: u16,
    pub matrix: [u8; 36],
    pub udta: Vec<u8>,
}

impl Model for MovieHead {
    ghost use Rattle.mp_timeline.specs.Movie.{MovieHeadRecord};

    ghost Value = { MovieHeadRecord };

    ghost view = { λ h. record {
      created = h.created;
      modified = h.modified;
      rate = h.rate;
      volume = h.volume;
      matrix = h.matrix;
      udta = h.udta.items;
    } };
}

/// The head of a track, from its track header (ISO/IEC 14496-12, 8.3.2), media header (8.4.2),
/// handler reference (8.4.3) and user data (8.10.1).
///
/// `width` and `height` are 16.16 numbers. `udta` is the whole box, or no bytes.
#[derive(Drop)]
pub struct TrackHead {
    pub flags: u32,
    pub created: u64,
    pub modified: u64,
    pub layer: u16,
    pub group: u16,
    pub volume: u16,
    pub matrix: [u8; 36],
    pub width: u32,
    pub height: u32,
    pub media_created: u64,
    pub media_modified: u64,
    pub language: u16,
    pub handler: [u8; 4],
    pub name: Vec<u8>,
    pub udta: Vec<u8>,
}

impl Model for TrackHead {
    ghost use Rattle.mp_timeline.specs.Movie.{TrackHeadRecord};

    ghost Value = { TrackHeadRecord };

    ghost view = { λ h. record {
      flags = h.flags;
      created = h.created;
      modified = h.modified;
      layer = h.layer;
      group = h.group;
      volume = h.volume;
      matrix = h.matrix;
      width = h.width;
      height = h.height;
      media_created = h.media_created;
      media_modified = h.media_modified;
      language = h.language;
      handler = h.handler;
      name = h.name.items;
      udta = h.udta.items;
    } };
}

/// A sample. Its times are ticks of the track's scale, and `entry` counts the sample entries from 1.
#[derive(Drop)]
pub struct PlainSample {
    pub bytes: Vec<u8>,
    pub decode: u64,
    pub dur: u32,
    pub comp: i64,
    pub sync: bool,
    pub entry: u32,
}

impl Model for PlainSample {
    ghost use Rattle.mp_timeline.specs.Movie.{SampleRecord};

    ghost Value = { SampleRecord };

    ghost view = { λ s. record {
      bytes = s.bytes.items;
      decode = s.decode;
      dur = s.dur;
      comp = s.comp;
      sync = s.sync;
      entry = s.entry;
    } };
}

/// The bytes of one sample entry: the whole box.
#[derive(Drop)]
pub struct EntryBytes {
    pub bytes: Vec<u8>,
}

impl Model for EntryBytes {
    ghost use Rattle.std.specs.Prelude.{ℕ, List};

    ghost Value = { List ℕ };

    ghost view = { λ e. e.bytes.items };
}

/// A track: `scale` is ticks a second, `samples` stand in decode order, `edits` are `None` where the
/// whole media is shown as it is.
#[derive(Drop)]
pub struct PlainTrack {
    pub number: u32,
    pub head: TrackHead,
    pub scale: u32,
    pub entries: Vec<EntryBytes>,
    pub samples: Vec<PlainSample>,
    pub edits: Option<Vec<Segment>>,
}

impl Model for PlainTrack {
    ghost use Rattle.std.specs.Prelude.{option_map};
    ghost use Rattle.mp_timeline.specs.Movie.{TrackRecord};

    ghost Value = { TrackRecord };

    ghost view = { λ t. record {
      number = t.number;
      head = t.head;
      scale = t.scale;
      entries = t.entries.items;
      samples = t.samples.items;
      edits = option_map (λ e. e.items) t.edits;
    } };
}

/// A movie: `scale` is ticks a second, tracks stand in the order of the file.
#[derive(Drop)]
pub struct PlainMovie {
    pub scale: u32,
    pub head: MovieHead,
    pub tracks: Vec<PlainTrack>,
}

impl Model for PlainMovie {
    ghost use Rattle.mp_timeline.specs.Movie.{MovieRecord};

    ghost Value = { MovieRecord };

    ghost view = { λ m. record { scale = m.scale; head = m.head; tracks = m.tracks.items } };
}
