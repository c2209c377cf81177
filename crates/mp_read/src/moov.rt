//! The boxes of a movie in memory (ISO/IEC 14496-12, 4.2).

ghost use Rattle.std.specs.Prelude.{◌+◌, ◌<◌, ◌^◌, length};

use mp_boxes::{BoxHead, ChildBox, Span, at_most_one, check_boxes, first_child, one, one_of_two};
use mp_ports::{Bad, NoMemory};
use std::alloc::Global;

/// Bytes of a file that hold a box with all boxes in it, and their place in the file.
#[derive(Clone, Copy)]
pub struct Moov<'a> {
    pub bytes: &'a [u8],
    pub base: u64,
    ghost ends: { base + length bytes.now < 2 ^ 64 },
}

impl<'a> Moov<'a> {
    ghost use Rattle.std.specs.Prelude.{◌≡◌, ◌+◌, ◌<◌, ◌^◌, length, IsOk, IfOk, IfSome, OnOk, Some, option_map};
    ghost use Rattle.mp_ports.specs.Checks.{Checks};
    ghost use Rattle.mp_ports.specs.Gives.{Gives};
    ghost use Rattle.mp_boxes.specs.Boxes.{Box, IsContainer, body_place};
    ghost use Rattle.mp_boxes.specs.Head.{IsInside};
    ghost use Rattle.mp_boxes.specs.Child.{IsHeadOf, IsSpan, IsWithin};
    ghost use Rattle.mp_movie.specs.Children.{at_most_one, children, has_boxes, one, one_of_two, user_data};
    ghost use Rattle.mp_read.specs.Part.{IsPart, part_of};

    /// The body of a box.
    pub fn body(&self, part: ChildBox) -> &'a [u8]
        requires { IsPart self.now part }
        ensures { result.now ≡ (part_of self.now part).body }
    {
        &self.bytes[part.span.from..part.span.to]
    }

    /// The place of that body in the file.
    #[tactic(auto, using(crate::proofs::PartsInParts::place_is))]
    pub fn body_place(&self, part: ChildBox) -> u64
        requires { IsPart self.now part }
        ensures place { result ≡ body_place (part_of self.now part) }
        ensures end { result + length (part_of self.now part).body < 2 ^ 64 }
    {
        self.base + part.span.from as u64
    }

    /// The box of that type whose body stands there in the body of another.
    pub(crate) fn child(&self, part: ChildBox, kind: [u8; 4], span: Span) -> ChildBox
        requires part { IsPart self.now part }
        requires within { IsWithin (part_of self.now part).body span }
        requires span { (child : Box) × IsSpan (body_place (part_of self.now part))
            (part_of self.now part).body span child }
        ensures part { IsPart self.now result }
        ensures child { (child : Box) → IsSpan (body_place (part_of self.now part))
            (part_of self.now part).body span child
            → kind ≡ child.kind → part_of self.now result ≡ child }
    {
        let from = part.span.from;
        let span = Span {
            from: from + span.from,
            to: from + span.to,
            place: span.place,
        };
        ChildBox { kind, span }
    }

    /// The box of that head in the body of another.
    pub(crate) fn headed(&self, part: ChildBox, head: BoxHead) -> ChildBox
        requires part { IsPart self.now part }
        requires inside { IsInside (part_of self.now part).body head.place head }
        requires head { (child : Box) × IsHeadOf (body_place (part_of self.now part))
            (part_of self.now part).body head child }
        ensures part { IsPart self.now result }
        ensures child { (child : Box) → IsHeadOf (body_place (part_of self.now part))
            (part_of self.now part).body head child
            → part_of self.now result ≡ child }
    {
        let span = Span {
            from: head.place + head.head,
            to: head.place + head.len,
            place: self.body_place(part) + head.place as u64,
        };
        self.child(part, head.kind, span)
    }

    /// Whether a box is whole boxes, one after another: `BoxCut` and `BoxSize`.
    #[tactic(auto, unfolding(mp_movie::specs::Children::children))]
    pub fn check_boxes(&self, part: ChildBox) -> Result<(), Bad>
        requires { IsPart self.now part }
        ensures fault { Checks result (has_boxes (part_of self.now part)) }
        ensures whole { OnOk result (IsOk (children (part_of self.now part))) }
        ensures boxes { let box = part_of self.now part in OnOk result (IsContainer (body_place box) box.body) }
    {
        check_boxes(self.body(part), self.body_place(part))
    }

    /// The one box of that type in a box: `BoxMissing` at its end, `BoxTwice` at the second.
    #[tactic(auto, unfolding(mp_movie::specs::Children::children, mp_movie::specs::Children::one))]
    pub fn one(&self, part: ChildBox, kind: [u8; 4]) -> Result<ChildBox, Bad>
        requires part { IsPart self.now part }
        requires whole { IsOk (children (part_of self.now part)) }
        ensures child { Gives Some (part_of self.now) result (one kind (part_of self.now part)) }
        ensures part { IfOk result (IsPart self.now) }
    {
        let span = one(self.body(part), self.body_place(part), kind)?;
        Ok(self.child(part, kind, span))
    }

    /// The same where there may be none.
    #[tactic(auto, unfolding(mp_movie::specs::Children::children, mp_movie::specs::Children::at_most_one))]
    pub fn at_most_one(&self, part: ChildBox, kind: [u8; 4]) -> Result<Option<ChildBox>, Bad>
        requires part { IsPart self.now part }
        requires whole { IsOk (children (part_of self.now part)) }
        ensures child { Gives Some (option_map (part_of self.now)) result (at_most_one kind (part_of self.now part)) }
        ensures part { IfOk result (λ child. IfSome child (IsPart self.now)) }
    {
        match at_most_one(self.body(part), self.body_place(part), kind)? {
            Some(span) => Ok(Some(self.child(part, kind, span))),
            None => Ok(None),
        }
    }

    /// The one box of either type in a box.
    #[tactic(auto, unfolding(mp_movie::specs::Children::children, mp_movie::specs::Children::one_of_two))]
    pub fn one_of_two(&self, part: ChildBox, kind: [u8; 4], other: [u8; 4]) -> Result<ChildBox, Bad>
        requires part { IsPart self.now part }
        requires whole { IsOk (children (part_of self.now part)) }
        ensures child { Gives Some (part_of self.now) result (one_of_two kind other (part_of self.now part)) }
        ensures part { IfOk result (IsPart self.now) }
    {
        let child = one_of_two(self.body(part), self.body_place(part), kind, other)?;
        Ok(self.child(part, child.kind, child.span))
    }

    /// The user data in a box (8.10.1): the whole first box of its type, or no bytes.
    #[tactic(auto, unfolding(mp_movie::specs::Children::children, mp_movie::specs::Children::user_data))]
    pub fn user_data(&self, alloc: Global, part: ChildBox) -> Result<Vec<u8>, NoMemory>
        requires part { IsPart self.now part }
        requires whole { IsOk (children (part_of self.now part)) }
        ensures { IfOk result (λ udta. udta.items ≡ user_data (part_of self.now part)) }
    {
        let body = self.body(part);
        match first_child(body, self.body_place(part), *b"udta") {
            Some(child) => Ok(Vec::from_slice(alloc, &body[child.place..child.place + child.len])?),
            None => Ok(Vec::new(alloc)),
        }
    }
}
