//! The children of a container (ISO/IEC 14496-12, 4.2).

ghost use Rattle.std.specs.Prelude.{◌≡◌, ◌+◌, ◌<◌, ◌≤◌, ◌^◌, false, List, length, IsOk, IfOk, OnOk, IfErr, IfSome, Ok};
ghost use Rattle.mp_boxes.specs.Boxes.{AreLeft, Box, IsContainer, IsFirstFault, boxes};
ghost use Rattle.mp_boxes.specs.Head.{IsInside};
ghost use Rattle.mp_boxes.specs.Child.{
  GivesBox,
  IsChildBox,
  IsHeadOf,
  IsSpan,
  IsWithin,
  MayBeFirstOf,
  MayGiveBox,
  child_count,
  first_child,
  is_either,
  of_either,
  of_kind,
  one_child,
  one_child_of_two,
  optional_child,
  optional_child_of_two,
  span_of,
};

use crate::head::{BoxHead, next_box};
use mp_ports::{Bad, Code};

/// Where the body of a child stands in a slice, and where the child begins in the file.
#[derive(Clone, Copy, Debug, PartialEq, Eq)]
pub struct Span {
    pub from: usize,
    pub to: usize,
    pub place: u64,
}

/// The type of a child, and where its body stands.
#[derive(Clone, Copy, Debug, PartialEq, Eq)]
pub struct ChildBox {
    pub kind: [u8; 4],
    pub span: Span,
}

impl ChildBox {
    /// The child with that head, in a slice that stands at `base`.
    fn of(child: BoxHead, base: u64) -> Self
        requires place { base + child.place < 2 ^ 64 }
        requires end { child.place + child.len < 2 ^ 64 }
        requires header { child.head ≤ child.len }
        ensures { result ≡ record { kind = child.kind; span = span_of base child } }
    {
        let kind = child.kind;
        let span = Span {
            from: child.place + child.head,
            to: child.place + child.len,
            place: base + child.place as u64,
        };
        ChildBox { kind, span }
    }
}

/// Whether a container's body that stands at `base` in the file is whole boxes, one after another.
///
/// `BoxCut` and `BoxSize` as for `head_of`, at the first such box.
pub fn check_boxes(bytes: &[u8], base: u64) -> Result<(), Bad>
    requires { base + length bytes.now < 2 ^ 64 }
    // it is cut into boxes, and read as these
    ensures boxes { OnOk result (IsContainer base bytes.now) }
    // its first fault in file order
    ensures first { IfErr result (IsFirstFault false base bytes.now) }
    ensures fault { IfErr result (λ bad. boxes false base bytes.now ≡ Err bad) }
{
    let mut at = 0;
    while let Some(child) = next_box(bytes, at, base)? {
        at += child.len;
    }
    Ok(())
}

fn is_either(kind: [u8; 4], other: [u8; 4], this: [u8; 4]) -> bool
    ensures { result ≡ is_either kind other this }
{
    this == kind || this == other
}

/// The next child of either type from `from` on, where a child begins or the body ends.
fn next_of_two(
    bytes: &[u8],
    from: usize,
    base: u64,
    kind: [u8; 4],
    other: [u8; 4],
) -> Option<BoxHead>
    requires inside { from ≤ length bytes.now }
    requires place { base + length bytes.now < 2 ^ 64 }
    requires cut { (left : List Box) × AreLeft base from bytes.now left }
    ensures next { (left : List Box) → AreLeft base from bytes.now left
        → MayBeFirstOf (of_either kind other) base bytes.now left result }
    ensures inside { IfSome result (λ found. IsInside bytes.now found.place found) }
    ensures behind { IfSome result (λ found. from ≤ found.place) }
{
    let mut at = from;
    while let Ok(Some(child)) = next_box(bytes, at, base) {
        if is_either(kind, other, child.kind) {
            return Some(child);
        }
        at = child.place + child.len;
    }
    None
}

/// The child of either type in a container's body, if there is one; `BoxTwice` at the second.
fn at_most_one_of_two(
    bytes: &[u8],
    base: u64,
    kind: [u8; 4],
    other: [u8; 4],
) -> Result<Option<ChildBox>, Bad>
    requires place { base + length bytes.now < 2 ^ 64 }
    requires cut { IsOk (boxes false base bytes.now) }
    ensures child { MayGiveBox (IsChildBox base bytes.now) result (optional_child_of_two base bytes.now kind other) }
    ensures inside { IfOk result (λ found. IfSome found (λ child. IsWithin bytes.now child.span)) }
{
    let Some(child) = next_of_two(bytes, 0, base, kind, other) else {
        return Ok(None);
    };
    match next_of_two(bytes, child.place + child.len, base, kind, other) {
        Some(second) => Err(Bad::at(Code::BoxTwice, base + second.place as u64)),
        None => Ok(Some(ChildBox::of(child, base))),
    }
}

/// The child of that type in a container's body that stands at `base` in the file, if there is one.
///
/// `BoxTwice` at the second. The body is to be whole boxes, which `check_boxes` tells.
pub fn at_most_one(bytes: &[u8], base: u64, kind: [u8; 4]) -> Result<Option<Span>, Bad>
    requires place { base + length bytes.now < 2 ^ 64 }
    requires cut { IsOk (boxes false base bytes.now) }
    ensures child { MayGiveBox (IsSpan base bytes.now) result (optional_child base bytes.now kind) }
    ensures inside { IfOk result (λ found. IfSome found (IsWithin bytes.now)) }
{
    match at_most_one_of_two(bytes, base, kind, kind)? {
        Some(child) => Ok(Some(child.span)),
        None => Ok(None),
    }
}

/// The one child of either type in a container's body that stands at `base` in the file.
///
/// `BoxMissing` at the body's end, `BoxTwice` at the second of the two types in file order. The body is
/// to be whole boxes, which `check_boxes` tells.
pub fn one_of_two(bytes: &[u8], base: u64, kind: [u8; 4], other: [u8; 4]) -> Result<ChildBox, Bad>
    requires place { base + length bytes.now < 2 ^ 64 }
    requires cut { IsOk (boxes false base bytes.now) }
    ensures child { GivesBox (IsChildBox base bytes.now) result (one_child_of_two base bytes.now kind other) }
    ensures inside { IfOk result (λ child. IsWithin bytes.now child.span) }
{
    match at_most_one_of_two(bytes, base, kind, other)? {
        Some(child) => Ok(child),
        None => Err(Bad::at(Code::BoxMissing, base + bytes.len() as u64)),
    }
}

/// The one child of that type in a container's body that stands at `base` in the file.
///
/// `BoxMissing` at the body's end, `BoxTwice` at the second. The body is to be whole boxes, which
/// `check_boxes` tells.
pub fn one(bytes: &[u8], base: u64, kind: [u8; 4]) -> Result<Span, Bad>
    requires place { base + length bytes.now < 2 ^ 64 }
    requires cut { IsOk (boxes false base bytes.now) }
    ensures child { GivesBox (IsSpan base bytes.now) result (one_child base bytes.now kind) }
    ensures inside { IfOk result (IsWithin bytes.now) }
{
    let child = one_of_two(bytes, base, kind, kind)?;
    Ok(child.span)
}

/// The next child of that type from `from` on, where a child begins or the body ends; `None` where there
/// is none. The body stands at `base` in the file.
pub fn next_child(bytes: &[u8], from: usize, base: u64, kind: [u8; 4]) -> Option<BoxHead>
    requires inside { from ≤ length bytes.now }
    requires place { base + length bytes.now < 2 ^ 64 }
    requires cut { (left : List Box) × AreLeft base from bytes.now left }
    ensures next { (left : List Box) → AreLeft base from bytes.now left
        → MayBeFirstOf (of_kind kind) base bytes.now left result }
    ensures inside { IfSome result (λ found. IsInside bytes.now found.place found) }
    ensures behind { IfSome result (λ found. from ≤ found.place) }
{
    next_of_two(bytes, from, base, kind, kind)
}

/// The first child of that type in a container's body that stands at `base` in the file, for a type that
/// may stand more than once. The body is to be whole boxes, which `check_boxes` tells.
pub fn first_child(bytes: &[u8], base: u64, kind: [u8; 4]) -> Option<BoxHead>
    requires place { base + length bytes.now < 2 ^ 64 }
    requires cut { IsOk (boxes false base bytes.now) }
    ensures child { MayGiveBox (IsHeadOf base bytes.now) (Ok result) (first_child base bytes.now kind) }
    ensures inside { IfSome result (λ found. IsInside bytes.now found.place found) }
{
    next_child(bytes, 0, base, kind)
}

/// How many children of a container's body that stands at `base` in the file have that type. The body is
/// to be whole boxes, which `check_boxes` tells.
pub fn child_count(bytes: &[u8], base: u64, kind: [u8; 4]) -> usize
    requires place { base + length bytes.now < 2 ^ 64 }
    requires cut { IsOk (boxes false base bytes.now) }
    ensures { child_count base bytes.now kind ≡ Ok result }
{
    let mut count = 0;
    let mut at = 0;
    while let Some(child) = next_child(bytes, at, base, kind) {
        count += 1;
        at = child.place + child.len;
    }
    count
}
