//! The data references of a track (ISO/IEC 14496-12, 8.7.2).

ghost use Rattle.std.specs.Prelude.{◌≡◌, ℕ, ◌+◌, ◌<◌, ◌^◌, [], ◌∷◌, length, IfOk, Ok};
ghost use Rattle.mp_ports.specs.Gives.{Gives, refusal};
ghost use Rattle.mp_boxes.specs.Counted.{IsCounted};
ghost use Rattle.mp_boxes.specs.FullBox.{first_field};
ghost use Rattle.mp_boxes.specs.Field.{box_bytes};
ghost use Rattle.mp_boxes.specs.Push.{IsPushed};
ghost use Rattle.mp_boxes.specs.Table.{HasLen, boxes_len, capped};
ghost use Rattle.mp_entries.specs.Reference.{dref, dref_of, local_references, url};

use mp_boxes::{
    FIRST_FIELD, FIRST_ROW, Field, begin_box, box_len, check_counted, flags, next_box, push_box,
    row_count,
};
use mp_ports::{Fail, NoMemory};
use std::alloc::Global;

/// For each of the references in these boxes, whether its data is in this file.
fn local_references(alloc: Global, bytes: &[u8], base: u64) -> Result<Vec<bool>, NoMemory>
    requires place { base + length bytes.now < 2 ^ 64 }
    requires counted { (count : ℕ) × IsCounted count first_field base bytes.now }
    ensures { IfOk result (λ local. local_references base bytes.now ≡ Ok local.items) }
{
    let mut local = Vec::new(alloc);
    let mut at = 0;
    while let Ok(Some(child)) = next_box(bytes, at, base) {
        let body = &bytes[child.place + child.head..child.place + child.len];
        local.push(flags(body) % 2 == 1)?;
        at = child.place + child.len;
    }
    Ok(local)
}

/// For each data reference in the box at `place`, whose body stands at `base`, whether its data is in
/// this file.
///
/// In this order: `TableLength` where version, flags or number are cut, `BoxVersion`, `BoxCut` and
/// `BoxSize` of the references, `TableLength` where they aren't so many or one has no version and flags.
#[tactic(auto, unfolding(crate::specs::Reference::dref_of))]
pub fn read_dref(alloc: Global, body: &[u8], base: u64, place: u64) -> Result<Vec<bool>, Fail>
    requires { base + length body.now < 2 ^ 64 }
    ensures { Gives refusal (λ local. local.items) result (dref_of place base body.now) }
{
    let count = row_count(body, 0, 0, place)?;
    let references = &body[FIRST_ROW..];
    let base = base + FIRST_ROW as u64;
    check_counted(references, base, count, FIRST_FIELD, place)?;
    let local = local_references(alloc, references, base)?;
    Ok(local)
}

/// The length of the box `url `.
fn url_len() -> u64
    ensures { result ≡ capped (boxes_len (url ∷ [])) }
{
    box_len(&[Field::version_and_flags(false, 1)], 0)
}

/// The length of the box `dref` of one reference, whose data is in this file.
pub fn dref_len() -> u64
    ensures { HasLen result dref }
{
    let head = [Field::version_and_flags(false, 0), Field::U32(1)];
    box_len(&head, url_len())
}

/// Pushes the box `dref` of one reference, whose data is in this file.
pub fn push_dref(out: &mut Vec<u8>)
    ensures { IsPushed out.old out.new (box_bytes dref) }
{
    let head = [Field::version_and_flags(false, 0), Field::U32(1)];
    begin_box(out, *b"dref", &head, dref_len());
    push_box(out, *b"url ", &[Field::version_and_flags(false, 1)]);
}
