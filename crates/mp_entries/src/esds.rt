//! The sample entries of MPEG-4 sound and pictures (ISO/IEC 14496-14, 5.6).

use std::marker::Model;

/// What the entry of an MPEG-4 stream says.
#[derive(Drop)]
pub struct EsdsEntry {
    /// Sound, else pictures.
    pub audio: bool,
    /// objectTypeIndication (ISO/IEC 14496-1, 7.2.6.6).
    pub object: u8,
    /// The channels of sound.
    pub channels: u16,
    /// Samples a second of sound.
    pub rate: u32,
    /// The size of the decoder's buffer, in bytes.
    pub buffer: u32,
    /// The greatest bits a second.
    pub maximal: u32,
    /// The average bits a second.
    pub average: u32,
    /// The decoder's configuration.
    pub info: Vec<u8>,
}

impl Model for EsdsEntry {
    ghost use Rattle.mp_entries.specs.Esds.{EsdsRecord};

    ghost Value = { EsdsRecord };

    ghost view = { λ entry. record {
      audio = entry.audio;
      object = entry.object;
      channels = entry.channels;
      rate = entry.rate;
      buffer = entry.buffer;
      maximal = entry.maximal;
      average = entry.average;
      info = entry.info.items;
    } };
}
