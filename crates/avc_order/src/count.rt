//! Picture order counts.
ghost use Rattle.std.specs.Prelude.{◌≡◌, ◌+◌, ◌*◌, ◌<◌, ◌≤◌, ◌^◌, ℕ, ℤ, pos, neg_ℤ, ◌≤ℤ◌, ◌+ℤ◌, List, ◌∷◌};
ghost use Rattle.avc_order.specs.Count.{rule_of, nothing, before, turn_of, moved, msb_of, lesser, field_count};
ghost use Rattle.avc_order.specs.Count.{offset_of, frame_count, count_by, kept_behind, count_of, after, counts_of};
ghost use Rattle.avc_slices.specs.declared.slice.Slice.{Slice};

use avc_sets::Sps;
use avc_slices::Slice;

/// How counts are formed: their type, how many values a low part has, and how many a frame number.
#[derive(Clone, Copy)]
pub(crate) struct Rule {
    pub poc_type: u8,
    pub lsbs: u32,
    pub frames: u32,
}

/// What earlier pictures leave: both parts of the last reference picture's count, and of the last
/// picture the frame number and what is added to it.
#[derive(Clone, Copy)]
pub(crate) struct Kept {
    pub msb: i64,
    pub lsb: u32,
    pub offset: u64,
    pub frame_num: u32,
}

/// Whether a low part passed its end.
#[derive(Clone, Copy)]
pub(crate) enum Turn {
    Up,
    Down,
    Stay,
}

/// The order counts of the pictures of a stream, one after another in decode order (H.264, 8.2.1).
#[derive(Clone, Copy)]
pub struct Counts {
    rule: Rule,
    kept: Kept,
    pub(crate) calls: u32,
    ghost lsbs: { rule.lsbs ≤ 65536 },
    ghost frames: { rule.frames ≤ 65536 },
    ghost low: { neg_ℤ (pos (65536 * calls)) ≤ℤ kept.msb },
    ghost high: { kept.msb ≤ℤ pos (65536 * calls) },
    ghost offset: { kept.offset ≤ 65536 * calls },
}

impl Counts {
    /// No picture stands before. It takes no memory.
    pub fn new(sps: &Sps) -> Counts
        ensures rule { result.rule ≡ rule_of sps.now }
        ensures kept { result.kept ≡ nothing }
        ensures calls { result.calls ≡ 0 }
    {
        Counts {
            rule: Rule {
                poc_type: sps.poc_type,
                lsbs: values(sps.poc_bits),
                frames: values(sps.frame_bits),
            },
            kept: NOTHING,
            calls: 0,
        }
    }

    /// The count of the next picture, by its first slice: the lesser one of its fields'.
    #[tactic(auto, unfolding(crate::specs::Count::count_of, crate::specs::Count::after))]
    pub fn next(&mut self, first: &Slice) -> i64
        requires { self.old.calls < 8388608 }
        ensures count { result ≡ count_of self.old.rule self.old.kept first.now }
        // It is the first of the counts of this picture and of any behind it, and the others come next.
        ensures counts { (firsts : List Slice) → counts_of self.old.rule self.old.kept (first.now ∷ firsts)
            ≡ result ∷ counts_of self.new.rule self.new.kept firsts }
        ensures kept { self.new.kept ≡ after self.old.rule self.old.kept first.now }
        ensures rule { self.new.rule ≡ self.old.rule }
        ensures calls { self.new.calls ≡ self.old.calls + 1 }
    {
        let high = high_of(self, first);
        let offset = offset_of(self, first);
        let count = count_by(self.rule, high, offset, first);
        let kept = kept_behind(self, high, offset, first);
        self.calls += 1;
        self.kept = kept;
        count
    }
}

const NOTHING: Kept = Kept {
    msb: 0,
    lsb: 0,
    offset: 0,
    frame_num: 0,
};

// How many values so many bits have.
fn values(bits: u8) -> u32
    requires { bits ≤ 16 }
    ensures value { result ≡ 2 ^ bits }
    ensures few { result ≤ 65536 }
{
    1 << bits
}

fn turn_at(max: u64, last: u64, lsb: u64) -> Turn
    requires last { last < 2 ^ 32 }
    requires lsb { lsb < 2 ^ 32 }
    ensures { result ≡ turn_of max last lsb }
{
    if lsb < last && max <= 2 * (last - lsb) {
        Turn::Up
    } else if last < lsb && max < 2 * (lsb - last) {
        Turn::Down
    } else {
        Turn::Stay
    }
}

// The sum of two numbers.
fn sum(a: i64, b: i64) -> i64
    requires low_a { neg_ℤ (pos (2 ^ 60)) ≤ℤ a }
    requires high_a { a ≤ℤ pos (2 ^ 60) }
    requires low_b { neg_ℤ (pos (2 ^ 60)) ≤ℤ b }
    requires high_b { b ≤ℤ pos (2 ^ 60) }
    ensures { result ≡ a +ℤ b }
{
    a + b
}

fn step(msb: i64, max: i64, turn: Turn) -> i64
    requires low { neg_ℤ (pos (2 ^ 59)) ≤ℤ msb }
    requires high { msb ≤ℤ pos (2 ^ 59) }
    requires none { pos 0 ≤ℤ max }
    requires max { max ≤ℤ pos 65536 }
    ensures moved { (m : ℕ) → max ≡ pos m → result ≡ moved msb m turn }
    ensures low { (msb +ℤ neg_ℤ (pos 65536)) ≤ℤ result }
    ensures high { result ≤ℤ (msb +ℤ pos 65536) }
{
    match turn {
        Turn::Up => sum(msb, max),
        Turn::Down => sum(msb, -max),
        Turn::Stay => msb,
    }
}

// The high part of a picture's count.
#[tactic(auto, unfolding(crate::specs::Count::msb_of))]
fn high_of(counts: &Counts, first: &Slice) -> i64
    requires { counts.now.calls < 8388608 }
    ensures high { result ≡ msb_of counts.now.rule.lsbs (before counts.now.kept first.now) first.now.lsb }
    ensures low_end { neg_ℤ (pos (65536 * (counts.now.calls + 1))) ≤ℤ result }
    ensures high_end { result ≤ℤ pos (65536 * (counts.now.calls + 1)) }
{
    let max = counts.rule.lsbs;
    if first.idr {
        let turn = turn_at(u64::from(max), 0, u64::from(first.lsb));
        step(0, i64::from(max), turn)
    } else {
        let turn = turn_at(
            u64::from(max),
            u64::from(counts.kept.lsb),
            u64::from(first.lsb),
        );
        step(counts.kept.msb, i64::from(max), turn)
    }
}

// The lesser of two numbers.
fn lesser_of(a: i64, b: i64) -> i64
    ensures { result ≡ lesser a b }
{
    if b < a { b } else { a }
}

// The lesser count of the two fields above a high part.
fn field_count(high: i64, lsb: u32, bottom: i32) -> i64
    requires low { neg_ℤ (pos (2 ^ 59)) ≤ℤ high }
    requires high { high ≤ℤ pos (2 ^ 59) }
    ensures { result ≡ field_count high lsb bottom }
{
    let top = sum(high, i64::from(lsb));
    lesser_of(top, top + i64::from(bottom))
}

// What is added to the frame number of a picture.
#[tactic(auto, unfolding(crate::specs::Count::offset_of))]
fn offset_of(counts: &Counts, first: &Slice) -> u64
    requires { counts.now.calls < 8388608 }
    ensures offset { result ≡ offset_of counts.now.rule.frames (before counts.now.kept first.now) first.now.frame_num }
    ensures high_end { result ≤ 65536 * (counts.now.calls + 1) }
{
    if first.idr {
        return 0;
    }
    if first.frame_num < counts.kept.frame_num {
        return counts.kept.offset + u64::from(counts.rule.frames);
    }
    counts.kept.offset
}

// The count of a picture whose order is that of decoding.
fn frame_count(offset: u64, first: &Slice) -> i64
    requires { offset ≤ 2 ^ 59 }
    ensures { result ≡ frame_count offset first.now }
{
    if first.idr {
        return 0;
    }
    let twice = (2 * (offset + u64::from(first.frame_num))) as i64;
    if first.ref_idc == 0 { twice - 1 } else { twice }
}

fn count_by(rule: Rule, high: i64, offset: u64, first: &Slice) -> i64
    requires low { neg_ℤ (pos (2 ^ 59)) ≤ℤ high }
    requires high { high ≤ℤ pos (2 ^ 59) }
    requires offset { offset ≤ 2 ^ 59 }
    ensures { result ≡ count_by rule high offset first.now }
{
    if rule.poc_type == 0 {
        field_count(high, first.lsb, first.bottom)
    } else {
        frame_count(offset, first)
    }
}

// What is kept behind a picture.
fn kept_behind(counts: &Counts, high: i64, offset: u64, first: &Slice) -> Kept
    requires low { neg_ℤ (pos (65536 * (counts.now.calls + 1))) ≤ℤ high }
    requires high { high ≤ℤ pos (65536 * (counts.now.calls + 1)) }
    ensures kept { result ≡ kept_behind counts.now.kept high offset first.now }
    ensures low_end { neg_ℤ (pos (65536 * (counts.now.calls + 1))) ≤ℤ result.msb }
    ensures high_end { result.msb ≤ℤ pos (65536 * (counts.now.calls + 1)) }
    ensures offset { result.offset ≡ offset }
{
    if first.ref_idc == 0 {
        return Kept {
            msb: counts.kept.msb,
            lsb: counts.kept.lsb,
            offset,
            frame_num: first.frame_num,
        };
    }
    Kept {
        msb: high,
        lsb: first.lsb,
        offset,
        frame_num: first.frame_num,
    }
}
