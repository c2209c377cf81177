//! What is kept of parameter sets.
use std::marker::Model;

/// A sequence parameter set (H.264, 7.3.2.1.1). Its type keeps each value in its range.
///
/// The depths are bits a sample, `frame_bits` and `poc_bits` those of a frame number and of the low part of an order
/// count, 0 where `poc_type` is 2. `width` and `height` are in samples, `tick` is `num_units_in_tick` and `time_scale`.
#[derive(Drop)]
pub struct Sps {
    pub profile: u8,
    pub compat: u8,
    pub level: u8,
    pub number: u8,
    pub chroma: u8,
    pub luma_depth: u8,
    pub chroma_depth: u8,
    pub frame_bits: u8,
    pub poc_type: u8,
    pub poc_bits: u8,
    pub frames_only: bool,
    pub width: u16,
    pub height: u16,
    pub tick: Option<(u32, u32)>,
}

impl Model for Sps {
    ghost use Rattle.avc_sets.specs.Set.{SequenceSet, IsSequenceSet};

    ghost Value = { SequenceSet };

    ghost use Rattle.avc_sets.specs.Fields.{sequence_set};

    ghost view = { sequence_set };

    ghost invariant = { λ s. IsSequenceSet (sequence_set s) };
}

/// A picture parameter set (H.264, 7.3.2.2). Its type keeps each value in its range.
///
/// `sps` is the number of its sequence parameter set; `refs0` and `refs1` are the numbers of references that a slice
/// has where it doesn't say others.
#[derive(Drop)]
pub struct Pps {
    pub number: u8,
    pub sps: u8,
    pub bottom_order: bool,
    pub refs0: u8,
    pub refs1: u8,
    pub weighted: bool,
    pub bipred: u8,
    pub redundant: bool,
}

impl Model for Pps {
    ghost use Rattle.avc_sets.specs.Set.{PictureSet, IsPictureSet};

    ghost Value = { PictureSet };

    ghost use Rattle.avc_sets.specs.Fields.{picture_set};

    ghost view = { picture_set };

    ghost invariant = { λ p. IsPictureSet (picture_set p) };
}
