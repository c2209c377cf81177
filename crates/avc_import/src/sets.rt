//! The parameter sets of a stream.

ghost use Rattle.std.specs.Prelude.{◌≡◌, ◌≤◌, ◌<◌, [], length, bytes_eq, option_map, slice_index_or, IfSome, IsSome, Some};
ghost use Rattle.mp_ports.specs.Checks.{placed};
ghost use Rattle.mp_ports.specs.Gives.{Gives, refusal};
ghost use Rattle.mp_ports.specs.declared.code.Code.TheVariants.{SetSyntax};
ghost use Rattle.avc_sets.specs.Configuration.{items_of};
ghost use Rattle.avc_sets.specs.Sequence.{sequence};
ghost use Rattle.avc_sets.specs.Picture.{picture};
ghost use Rattle.avc_import.specs.Sets.{AreKept, HaveSets, bits_in, longest_set, no_sets, says, sequence_of, unit_of, with_picture, with_sequence};
ghost use Rattle.avc_import.specs.SliceHeader.{count_type};

use avc_sets::{Pps, Sps, read_pps, read_sps};
use avc_units::{clean, tables_are_read};
use mp_ports::{Bad, Code, Fail, NoMemory};
use std::alloc::Global;
use std::marker::Model;

/// The most picture parameter sets that a configuration counts (ISO/IEC 14496-15, 5.3.3.1).
const MOST_PICTURES: usize = 255;

/// A sequence parameter set: its unit as it stands in the file, and its values.
#[derive(Drop)]
pub(crate) struct KeptSequence {
    pub(crate) bytes: Vec<u8>,
    pub(crate) fields: Sps,
}

impl Model for KeptSequence {
    ghost use Rattle.avc_import.specs.Sets.{SequenceUnit};

    ghost Value = { SequenceUnit };

    ghost view = { λ s. record { bytes = s.bytes.items; fields = s.fields } };
}

/// The sets of the units so far: the one sequence parameter set, and the values and the units of the picture parameter
/// sets, in the order in which they first stand.
#[derive(Drop)]
pub(crate) struct Sets {
    pub(crate) sequence: Option<KeptSequence>,
    pub(crate) pictures: Vec<Pps>,
    pub(crate) units: Vec<Vec<u8>>,
}

impl Model for Sets {
    ghost use Rattle.avc_sets.specs.Configuration.{items_of};
    ghost use Rattle.avc_import.specs.Sets.{ParameterSets, AreKept};

    ghost Value = { ParameterSets };

    ghost view = { λ s. record { sequence = s.sequence; pictures = s.pictures.items; units = items_of s.units.items } };

    ghost invariant = { λ s. AreKept (record {
      sequence = s.sequence;
      pictures = s.pictures.items;
      units = items_of s.units.items;
    }) };
}

impl Sets {
    /// No set. It takes no memory.
    pub(crate) fn new(alloc: Global) -> Sets
        ensures { result ≡ no_sets }
    {
        Sets {
            sequence: None,
            pictures: Vec::new(alloc),
            units: Vec::new(alloc),
        }
    }

    /// Takes in a sequence parameter set, whose unit stands at that place.
    ///
    /// `SetProfile`, `Chroma`, `PocType` and `SetSyntax` by its values; `SetChange` where another stands before.
    #[tactic(auto, unfolding(crate::specs::Sets::with_sequence))]
    pub(crate) fn take_sequence(
        &mut self,
        alloc: Global,
        place: u64,
        unit: Vec<u8>,
    ) -> Result<(), Fail>
        requires { length unit.items ≤ longest_set }
        ensures taken { Gives refusal (λ _. self.new) result (with_sequence self.old place unit.items) }
        ensures kept { HaveSets self.old → HaveSets self.new }
    {
        let fields = sequence_in(alloc, place, &unit)?;
        match &self.sequence {
            Some(first) => {
                if !is_same(&first.bytes, &unit) {
                    return Err(Fail::Bad(Bad::at(Code::SetChange, place)));
                }
                Ok(())
            }
            None => {
                self.sequence = Some(KeptSequence {
                    bytes: unit,
                    fields,
                });
                Ok(())
            }
        }
    }

    /// Takes in a picture parameter set, whose unit stands at that place.
    ///
    /// `SliceGroups` and `SetSyntax` by its values; `SetChange` where another of its number stands before; `UnitLimit`
    /// for the 256th number.
    #[tactic(auto, unfolding(crate::specs::Sets::with_picture))]
    pub(crate) fn take_picture(
        &mut self,
        alloc: Global,
        place: u64,
        unit: Vec<u8>,
    ) -> Result<(), Fail>
        requires { length unit.items ≤ longest_set }
        ensures taken { Gives refusal (λ _. self.new) result (with_picture self.old place unit.items) }
        ensures kept { HaveSets self.old → HaveSets self.new }
    {
        let fields = picture_in(alloc, place, &unit)?;
        match find_unit(fields.number, &self.pictures, &self.units) {
            Some(at) => {
                if !is_same(&self.units[at], &unit) {
                    return Err(Fail::Bad(Bad::at(Code::SetChange, place)));
                }
                Ok(())
            }
            None => {
                if self.units.len() >= MOST_PICTURES {
                    return Err(Fail::Bad(Bad::at(Code::UnitLimit, place)));
                }
                self.pictures.push(fields)?;
                if self.units.push(unit).is_err() {
                    self.pictures.pop();
                    return Err(Fail::NoMemory);
                }
                Ok(())
            }
        }
    }
}

impl Sets {
    /// The values of the sequence parameter set.
    pub(crate) fn fields(&self) -> &Sps
        requires { IsSome self.now.sequence }
        ensures fields { sequence_of self.now ≡ Some result.now }
        ensures kept { AreKept self.now }
    {
        match &self.sequence {
            Some(sequence) => &sequence.fields,
            None => unreachable!(),
        }
    }

    /// The type of the order counts of the sequence.
    pub(crate) fn poc_type(&self) -> u8
        ensures { result ≡ count_type (sequence_of self.now) }
    {
        match &self.sequence {
            Some(sequence) => sequence.fields.poc_type,
            None => 0,
        }
    }
}

/// The values of the sequence parameter set in a unit, which stands at that place.
fn sequence_in(alloc: Global, place: u64, unit: &[u8]) -> Result<Sps, Fail>
    ensures { Gives refusal (λ fields. fields) result (placed place (says SetSyntax sequence (bits_in unit.now))) }
{
    tables_are_read::<Sps>();
    let clean = clean(alloc, unit)?;
    match read_sps(&clean) {
        Ok(fields) => Ok(fields),
        Err(code) => Err(Fail::Bad(Bad::at(code, place))),
    }
}

/// The values of the picture parameter set in a unit, which stands at that place.
fn picture_in(alloc: Global, place: u64, unit: &[u8]) -> Result<Pps, Fail>
    ensures { Gives refusal (λ fields. fields) result (placed place (says SetSyntax picture (bits_in unit.now))) }
{
    tables_are_read::<Pps>();
    let clean = clean(alloc, unit)?;
    match read_pps(&clean) {
        Ok(fields) => Ok(fields),
        Err(code) => Err(Fail::Bad(Bad::at(code, place))),
    }
}

/// Where the unit of the picture parameter set of that number stands.
fn find_unit(number: u8, pictures: &[Pps], units: &[Vec<u8>]) -> Option<usize>
    requires { length pictures.now ≡ length units.now }
    ensures inside { IfSome result (λ at. at < length units.now) }
    ensures unit { unit_of number pictures.now (items_of units.now)
        ≡ option_map (λ at. slice_index_or (items_of units.now) at []) result }
{
    for (at, set) in pictures.iter().enumerate() {
        if set.number == number {
            return Some(at);
        }
    }
    None
}

/// Whether two units have the same bytes.
fn is_same(earlier: &[u8], unit: &[u8]) -> bool
    ensures { result ≡ bytes_eq earlier.now unit.now }
{
    earlier == unit
}
