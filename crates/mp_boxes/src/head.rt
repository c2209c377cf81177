//! The head of a box (ISO/IEC 14496-12, 4.2).

ghost use Rattle.std.specs.Prelude.{◌≡◌, ◌+◌, ◌<◌, ◌≤◌, ◌^◌, List, length, min, slice_range, IfOk, IfSome};
ghost use Rattle.mp_boxes.specs.Head.{header_len, head_from, next_head, IsInside, IsWhole};
ghost use Rattle.mp_boxes.specs.Boxes.{AreLeft, Box};
ghost use Rattle.mp_boxes.specs.Child.{IsNextOf};

use crate::number::{kind_in, u32_in, u64_in};
use mp_ports::{Bad, Code};

/// The head of a box in a file, in bytes.
#[derive(Clone, Copy, Debug, PartialEq, Eq)]
pub struct TopHead {
    pub kind: [u8; 4],
    /// The length of its header.
    pub head: u64,
    /// The length of the whole box, header included.
    pub len: u64,
}

/// The head of a box in a slice, in bytes.
#[derive(Clone, Copy, Debug, PartialEq, Eq)]
pub struct BoxHead {
    pub kind: [u8; 4],
    /// Where the box begins in the slice.
    pub place: usize,
    /// The length of its header.
    pub head: usize,
    /// The length of the whole box, header included.
    pub len: usize,
}

fn header_len(front: &[u8]) -> u64
    requires { 8 ≤ length front.now }
    ensures { result ≡ header_len front.now }
{
    let mut len = 8;
    if u32_in(front, 0) == 1 {
        len += 8;
    }
    if kind_in(front, 4) == *b"uuid" {
        len += 16;
    }
    len
}

/// The head of the box whose first bytes are `front`, where `rest` bytes are left in the file or,
/// unless it stands at the `top` level, in its container.
///
/// `BoxCut` where the header or the box ends behind them, `BoxSize` where the size is shorter than
/// the header, or is 0 inside a container.
pub fn head_of(front: &[u8], rest: u64, top: bool) -> Result<TopHead, Code>
    requires { length front.now ≡ min rest 24 }
    ensures { result ≡ head_from top front.now rest }
{
    if rest < 8 {
        return Err(Code::BoxCut);
    }
    let head = header_len(front);
    if rest < head {
        return Err(Code::BoxCut);
    }
    let len = match u32_in(front, 0) {
        0 if !top => return Err(Code::BoxSize),
        0 => rest,
        1 => u64_in(front, 8),
        size => u64::from(size),
    };
    if len < head {
        return Err(Code::BoxSize);
    }
    if rest < len {
        return Err(Code::BoxCut);
    }
    let kind = kind_in(front, 4);
    Ok(TopHead { kind, head, len })
}

/// The box at `at` in a container's body that stands at `base` in the file; `None` at its end.
///
/// `BoxCut` and `BoxSize` as for `head_of`, at the place of the box.
pub fn next_box(bytes: &[u8], at: usize, base: u64) -> Result<Option<BoxHead>, Bad>
    requires inside { at ≤ length bytes.now }
    requires place { base + length bytes.now < 2 ^ 64 }
    ensures head { result ≡ next_head base bytes.now at }
    ensures inside { IfOk result (λ found. IfSome found (IsInside bytes.now at)) }
    // where the rest is cut into boxes, it is the next of them, and each is whole on its own
    ensures next { (left : List Box) → AreLeft base at bytes.now left → IsNextOf base bytes.now left result }
    ensures whole { IfOk result (λ found. IfSome found (λ head. IsWhole (slice_range bytes.now at (at + head.len)))) }
{
    if at == bytes.len() {
        return Ok(None);
    }
    let rest = bytes.len() - at;
    let front = &bytes[at..at + rest.min(24)];
    match head_of(front, rest as u64, false) {
        Ok(found) => {
            let kind = found.kind;
            let head = found.head as usize;
            let len = found.len as usize;
            Ok(Some(BoxHead {
                kind,
                place: at,
                head,
                len,
            }))
        }
        Err(code) => Err(Bad::at(code, base + at as u64)),
    }
}
