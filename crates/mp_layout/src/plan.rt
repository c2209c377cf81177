//! What stands in front of the payload of a file. Its length is known before its bytes.

ghost use Rattle.std.specs.Prelude.{◌≡◌, ◌+◌, ◌<◌, ◌≤◌, ◌^◌, ℕ, All, IfErr, IfOk, codes, length};
ghost use Rattle.std.specs.List.{AllByRecursion};
ghost use Rattle.mp_ports.specs.Checks.{bad_at};
ghost use Rattle.mp_ports.specs.declared.code.Code.TheVariants.{MoovLimit};
ghost use Rattle.mp_ports.specs.declared.fault.Fail.{Fail};
ghost use Rattle.mp_boxes.specs.Header.{head_bytes};
ghost use Rattle.mp_boxes.specs.Push.{IsPushed};
ghost use Rattle.mp_columns.specs.declared.columns.TheConstants.{MOST_ITEMS};
ghost use Rattle.mp_interleave.specs.Law.{IsWithin};
ghost use Rattle.mp_interleave.specs.Order.{planned};
ghost use Rattle.mp_movie.specs.CanBeWritten.{CanBeWritten};
ghost use Rattle.mp_layout.specs.Chunked.{CanAllBePlaced, IsChunkOrder};
ghost use Rattle.mp_layout.specs.File.{mdat_head};
ghost use Rattle.mp_layout.specs.Layout.{IsFront, IsLayout, IsRefused};
ghost use Rattle.mp_layout.specs.Plan.{Plans};
ghost use Rattle.mp_layout.specs.Wide.{IsShortReach};

use crate::law::file_presents_movie;
use crate::moov::{moov_len, push_moov};
use crate::places::{chunk_places, moved};
use crate::table::{track_reaches, traks_len};
use crate::wide::{Reach, least_wide, wide_chunks};
use mp_boxes::{boxes_have_lengths, push_head, reserve};
use mp_chunks::places_change_no_length;
use mp_headers::{ftyp_len, push_ftyp};
use mp_interleave::{Chunk, Plan, plans_stand_for_chunks, samples_stand_in_chunks};
use mp_movie::{Movie, columns_are_kept, parts_can_be_written, parts_stand_for_movies};
use mp_ports::{Bad, Code, Fail, NoMemory};
use std::alloc::Global;
use std::marker::Model;

/// The longest `moov` in bytes, header included.
const MOST_MOOV: u64 = 268_435_456;

/// The plan of a file: the bytes in front of the payload, the chunks in the order of the file and the place of
/// each, for each track whether its places have 64 bits, and the length of the whole file in bytes.
#[derive(Drop)]
pub struct FilePlan {
    pub front: Vec<u8>,
    pub plan: Plan,
    pub offsets: Vec<u64>,
    pub wide: Vec<bool>,
    pub length: u64,
}

impl Model for FilePlan {
    ghost use Rattle.mp_layout.specs.Plan.{FilePlanRecord};

    ghost Value = { FilePlanRecord };

    ghost view = { λ p. record {
      front = p.front.items;
      plan = p.plan;
      offsets = p.offsets.items;
      wide = p.wide.items;
      length = p.length;
    } };
}

/// The length of `moov`, and for each track whether its places have 64 bits.
#[derive(Drop)]
pub struct Layout {
    pub moov: u64,
    pub wide: Vec<bool>,
}

/// Lays the movie out as a file: `ftyp`, `moov` and the header of `mdat`, where the samples stand in these chunks,
/// which are those of the movie in windows of some length. It reads nothing.
///
/// `MoovLimit`, at no place, where `moov` would be longer than 268,435,456 bytes.
pub fn plan_file(alloc: Global, movie: &Movie, plan: Plan) -> Result<FilePlan, Fail>
    requires order { IsChunkOrder movie.now plan }
    ensures { (millis : ℕ) → plan ≡ planned millis movie.now → Plans result movie.now millis }
{
    // Laws of the format, of chunks and of movies, for the contract alone.
    file_presents_movie();
    boxes_have_lengths();
    places_change_no_length();
    columns_are_kept();
    parts_can_be_written();
    parts_stand_for_movies();
    samples_stand_in_chunks();
    plans_stand_for_chunks();
    let _samples = movie.samples();
    let payload = movie.payload();
    let tracks = movie.tracks();
    let behind = chunk_places(alloc, tracks, &plan.chunks)?;
    let reaches = track_reaches(alloc, movie.scale(), tracks, &plan.chunks, &behind)?;
    let head = mdat_head_len(payload);
    let narrow = moov_len(movie, traks_len(&reaches));
    let layout = least_layout(alloc, narrow, head, &reaches)?;
    let place = ftyp_len() + layout.moov + head;
    let offsets = moved(alloc, &behind, place)?;
    let front = push_front(alloc, movie, &plan.chunks, &offsets, &layout, place as u32)?;
    Ok(FilePlan {
        front,
        plan,
        offsets,
        wide: layout.wide,
        length: place + payload,
    })
}

/// The refusal of a `moov` that is too long.
fn too_long() -> Fail
    ensures { result ≡ Fail.Bad (bad_at MoovLimit 0) }
{
    Fail::Bad(Bad::at(Code::MoovLimit, 0))
}

/// The least set of tracks with places of 64 bits, and the length of `moov` with it, where `moov` has so many bytes
/// without it, and the header of `mdat` so many.
fn least_layout(alloc: Global, narrow: u64, head: u64, reaches: &[Reach]) -> Result<Layout, Fail>
    requires head { head ≤ 16 }
    requires few { length reaches.now ≤ 64 }
    requires short { All IsShortReach reaches.now }
    ensures laid { IfOk result (IsLayout narrow head reaches.now) }
    ensures refused { IfErr result (IsRefused narrow head reaches.now) }
{
    if narrow > MOST_MOOV {
        return Err(too_long());
    }
    let wide = least_wide(alloc, ftyp_len() + narrow + head, reaches)?;
    let moov = narrow + 4 * wide_chunks(reaches, &wide);
    if moov > MOST_MOOV {
        return Err(too_long());
    }
    Ok(Layout { moov, wide })
}

/// The bytes in front of the payload, of which there are so many.
fn push_front(
    alloc: Global,
    movie: &Movie,
    chunks: &[Chunk],
    places: &[u64],
    layout: &Layout,
    len: u32,
) -> Result<Vec<u8>, NoMemory>
    requires few_tracks { length movie.now.tracks ≤ 64 }
    requires within { AllByRecursion (IsWithin movie.now.tracks) chunks.now }
    requires written { AllByRecursion CanBeWritten movie.now.tracks }
    requires places { length places.now ≡ length chunks.now }
    requires few { length chunks.now ≤ MOST_ITEMS }
    requires flags { length layout.now.wide.items ≡ length movie.now.tracks }
    requires placed { CanAllBePlaced movie.now.tracks chunks.now places.now layout.now.wide.items }
    ensures { IfOk result (IsFront movie.now chunks.now places.now layout.now len) }
{
    let mut front = Vec::new(alloc);
    reserve(&mut front, len)?;
    push_ftyp(&mut front);
    push_moov(
        alloc,
        movie,
        chunks,
        places,
        &layout.wide,
        layout.moov,
        &mut front,
    )?;
    push_mdat_head(movie.payload(), &mut front);
    Ok(front)
}

/// The length of the header of `mdat`: 16 bytes where its size needs 64 bits, else 8.
fn mdat_head_len(payload: u64) -> u64
    requires { payload < 2 ^ 55 }
    ensures len { result ≡ length (mdat_head payload) }
    ensures small { result ≤ 16 }
    ensures head { head_bytes (codes "mdat") (result + payload) ≡ mdat_head payload }
{
    if 8 + payload <= u64::from(u32::MAX) {
        8
    } else {
        16
    }
}

/// Pushes that header.
fn push_mdat_head(payload: u64, out: &mut Vec<u8>)
    requires { payload < 2 ^ 55 }
    ensures { IsPushed out.old out.new (mdat_head payload) }
{
    push_head(out, *b"mdat", mdat_head_len(payload) + payload);
}
