//! The edits of a track (ISO/IEC 14496-12, 8.6.5 and 8.6.6).

ghost use Rattle.std.specs.Prelude.{IfSome, Some, option_map};
ghost use Rattle.mp_ports.specs.Checks.{unless};
ghost use Rattle.mp_ports.specs.Gives.{Gives, refusal};
ghost use Rattle.mp_movie.specs.Edits.{edits_fault, edits_of};
ghost use Rattle.mp_read.specs.Part.{IsPart, part_of};

use crate::moov::Moov;
use mp_boxes::ChildBox;
use mp_edits::{edits_are_read, read_elst};
use mp_ports::Fail;
use mp_timeline::Segment;
use std::alloc::Global;

/// The edits in an edit box; none without `elst` in it, and without an entry.
#[tactic(auto, unfolding(mp_movie::specs::Edits::edits_fault))]
fn edits_in(alloc: Global, moov: &Moov<'_>, edts: ChildBox) -> Result<Option<Vec<Segment>>, Fail>
    requires { IsPart moov.now edts }
    ensures { let box = Some (part_of moov.now edts) in
        Gives refusal (λ edits. option_map (λ list. list.items) edits) result
        (unless (edits_fault box) (edits_of box)) }
{
    edits_are_read();
    moov.check_boxes(edts)?;
    match moov.at_most_one(edts, *b"elst")? {
        Some(elst) => read_elst(alloc, moov.body(elst), elst.span.place),
        None => Ok(None),
    }
}

/// The edits of a track by its edit box; none without it.
///
/// `BoxCut` and `BoxSize` in `edts`, `BoxTwice` at a second `elst`, then as `read_elst`.
#[tactic(auto, unfolding(mp_movie::specs::Edits::edits_fault, mp_movie::specs::Edits::edits_of))]
pub fn read_edits(
    alloc: Global,
    moov: &Moov<'_>,
    edts: Option<ChildBox>,
) -> Result<Option<Vec<Segment>>, Fail>
    requires { IfSome edts (IsPart moov.now) }
    ensures { let box = option_map (part_of moov.now) edts in
        Gives refusal (λ edits. option_map (λ list. list.items) edits) result
        (unless (edits_fault box) (edits_of box)) }
{
    match edts {
        Some(edts) => edits_in(alloc, moov, edts),
        None => Ok(None),
    }
}
