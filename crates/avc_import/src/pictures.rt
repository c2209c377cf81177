//! The pictures of a stream, as its units come.

ghost use Rattle.std.specs.Prelude.{◌≡◌, ◌+◌, ◌-◌, ◌==◌, ◌<◌, ◌≤◌, ◌∷◌, ◌++◌, [], ℕ, List, length, map, get_or, slice_index, take, drop, if◌then◌else◌, OnOk};
ghost use Rattle.mp_ports.specs.Checks.{Checks, first_some};
ghost use Rattle.avc_units.specs.declared.reader.UnitSpan.{UnitSpan as Span};
ghost use Rattle.avc_order.specs.declared.access.NalUnit.{NalUnit as Nal};
ghost use Rattle.avc_order.specs.Access.{first_slices, is_first_slice, is_kept, last_slice, slice_of};
ghost use Rattle.avc_import.specs.Sets.{HaveSets, ParameterSets};
ghost use Rattle.avc_import.specs.Unit.{order_checks, IsCodedBy};
ghost use Rattle.avc_import.specs.Pictures.{AreCut, HasParts, Stands, IsAccepted, IsClosed, piece_of};

use avc_order::{AccessUnits, Begins, NalUnit, access_units_are_cut};
use avc_slices::Slice;
use avc_units::UnitSpan;
use mp_columns::MOST_ITEMS;
use mp_pieces::Piece;
use mp_ports::{Bad, Code, Fail, NoMemory};
use std::alloc::Global;

/// The pictures of the units so far: the first slice of each and its place, and the pieces that are kept of all units;
/// `ends` are how many pieces stand in front of each further access unit.
#[derive(Drop)]
pub(crate) struct Pictures {
    access: AccessUnits,
    pub(crate) firsts: Vec<Slice>,
    pub(crate) places: Vec<u64>,
    pub(crate) pieces: Vec<Piece>,
    pub(crate) ends: Vec<usize>,
}

impl Pictures {
    /// No unit stands before. It takes no memory.
    pub(crate) fn new(alloc: Global) -> Pictures
        ensures { (file size : ℕ) → Stands file size [] result }
    {
        Pictures {
            access: AccessUnits::new(),
            firsts: Vec::new(alloc),
            places: Vec::new(alloc),
            pieces: Vec::new(alloc),
            ends: Vec::new(alloc),
        }
    }

    /// Takes in the next unit, which has these bytes of an opened file.
    ///
    /// `FirstNotIdr` where the first slice is of no IDR picture, `SampleLimit` where a picture too many begins.
    pub(crate) fn accept(&mut self, file: u32, unit: &NalUnit, span: UnitSpan) -> Result<(), Fail>
        ensures stands { (size : ℕ) (units : List (Nal × Span)) → span.from + span.len ≤ size
            → Stands file size units self.old → IsAccepted result (first_some (order_checks units unit.now span.from))
            (Stands file size (units ++ (unit.now, span) ∷ []) self.new) }
        ensures sets { (sets : ParameterSets) → (0 < length self.old.firsts.items → HaveSets sets)
            → IsCodedBy sets unit.now → OnOk result (0 < length self.new.firsts.items → HaveSets sets) }
    {
        access_units_are_cut::<UnitSpan>();
        let begins = self.access.next(unit);
        check_order(unit, begins, self.firsts.len(), span.from)?;
        push_end(&mut self.ends, begins.access_unit, self.pieces.len())?;
        push_first(
            &mut self.firsts,
            &mut self.places,
            unit,
            begins.picture,
            span,
        )?;
        push_piece(&mut self.pieces, unit, file, span)?;
        Ok(())
    }

    /// No unit follows: units behind the last picture are dropped.
    pub(crate) fn close(&mut self) -> Result<(), NoMemory>
        ensures { (file size : ℕ) (units : List (Nal × Span)) → Stands file size units self.old
            → OnOk result (IsClosed file size units self.new) }
    {
        access_units_are_cut::<UnitSpan>();
        push_end(&mut self.ends, self.access.has_picture(), self.pieces.len())?;
        Ok(())
    }
}

impl Pictures {
    /// The pieces of picture k.
    pub(crate) fn part(&self, k: usize) -> &[Piece]
        requires inside { k < length self.now.ends.items }
        requires parts { HasParts self.now.pieces.items self.now.ends.items }
        ensures { (file : ℕ) (parts : List (List Span)) → AreCut file parts self.now.pieces.items self.now.ends.items
            → result.now ≡ map (piece_of file) (get_or parts k []) }
    {
        part_of(&self.pieces, &self.ends, k)
    }
}

/// Where picture k begins, by the places of its first slice.
pub(crate) fn place_at(places: &[u64], k: usize) -> u64
    requires { k < length places.now }
    ensures { result ≡ slice_index places.now k }
{
    places[k]
}

/// Of these pieces those of picture k.
fn part_of<'a>(pieces: &'a [Piece], ends: &[usize], k: usize) -> &'a [Piece]
    requires inside { k < length ends.now }
    requires parts { HasParts pieces.now ends.now }
    ensures { (file : ℕ) (parts : List (List Span)) → AreCut file parts pieces.now ends.now
        → result.now ≡ map (piece_of file) (get_or parts k []) }
{
    let from = part_begin(ends, k);
    between(pieces, from, ends[k])
}

/// How many pieces stand in front of picture k.
fn part_begin(ends: &[usize], k: usize) -> usize
    requires { k < length ends.now }
    ensures { result ≡ (if k == 0 then 0 else slice_index ends.now (k - 1)) }
{
    if k == 0 { 0 } else { ends[k - 1] }
}

/// The pieces from one place to before another.
fn between(pieces: &[Piece], from: usize, to: usize) -> &[Piece]
    requires some { from ≤ to }
    requires within { to ≤ length pieces.now }
    ensures { result.now ≡ take (to - from) (drop from pieces.now) }
{
    &pieces[from..to]
}

/// The checks of a unit behind so many pictures.
fn check_order(unit: &NalUnit, begins: Begins, pictures: usize, place: u64) -> Result<(), Bad>
    ensures { (units : List (Nal × Span)) → pictures ≡ length (first_slices units)
        → begins.picture ≡ is_first_slice (last_slice units) unit.now
        → Checks result (first_some (order_checks units unit.now place)) }
{
    if let NalUnit::Coded(slice, _) = unit {
        if pictures == 0 && !slice.idr {
            return Err(Bad::at(Code::FirstNotIdr, place));
        }
    }
    if begins.picture && pictures >= MOST_ITEMS as usize {
        return Err(Bad::at(Code::SampleLimit, 0));
    }
    Ok(())
}

/// So many pieces stand in front of an access unit that begins.
fn push_end(ends: &mut Vec<usize>, begins: bool, pieces: usize) -> Result<(), NoMemory>
    ensures { OnOk result (ends.new.items ≡ ends.old.items ++ (if begins then pieces ∷ [] else [])) }
{
    if begins {
        ends.push(pieces)?;
    }
    Ok(())
}

/// The slice with which a picture begins, and its place.
fn push_first(
    firsts: &mut Vec<Slice>,
    places: &mut Vec<u64>,
    unit: &NalUnit,
    begins: bool,
    span: UnitSpan,
) -> Result<(), NoMemory>
    ensures slice { OnOk result (firsts.new.items ≡ firsts.old.items
        ++ (if begins then map (λ p. p.0) (slice_of (unit.now, span)) else [])) }
    ensures place { OnOk result (places.new.items ≡ places.old.items
        ++ (if begins then map (λ p. p.1.from) (slice_of (unit.now, span)) else [])) }
{
    if !begins {
        return Ok(());
    }
    if let NalUnit::Coded(slice, _) = unit {
        firsts.push(*slice)?;
        places.push(span.from)?;
    }
    Ok(())
}

/// The piece of a unit that is kept.
fn push_piece(
    pieces: &mut Vec<Piece>,
    unit: &NalUnit,
    file: u32,
    span: UnitSpan,
) -> Result<(), NoMemory>
    ensures { OnOk result (pieces.new.items
        ≡ pieces.old.items ++ (if is_kept unit.now then piece_of file span ∷ [] else [])) }
{
    if unit.is_kept() {
        pieces.push(Piece {
            file,
            from: span.from,
            len: span.len,
            prefix: Some(span.len),
        })?;
    }
    Ok(())
}
