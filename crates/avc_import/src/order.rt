//! The order in which pictures are shown.

ghost use Rattle.std.specs.Prelude.{◌≡◌, ◌≤◌, ◌<◌, ◌+◌, ◌-◌, ℕ, length, slice_index, map, None, Some, Err, All, IfOk, OnOk};
ghost use Rattle.std.specs.List.{range_with_len};
ghost use Rattle.avc_order.specs.Count.{counts_of, nothing, rule_of};
ghost use Rattle.avc_order.specs.Sequence.{AreMarked, is_sync};
ghost use Rattle.avc_slices.specs.declared.slice.Slice.{Slice as First};
ghost use Rattle.avc_import.specs.Ranking.{begin_of, first_tie, latest, shown_at};
ghost use Rattle.avc_import.specs.Unit.{most_frames};

use avc_order::{Counts, RankFail, delay_of, ranks};
use avc_sets::Sps;
use avc_slices::Slice;
use mp_ports::NoMemory;
use std::alloc::Global;

/// The number of each picture in the order of showing, within its sequence and behind the sequences before, and by how
/// many pictures showing is later than decoding.
#[derive(Drop)]
pub(crate) struct Order {
    pub(crate) shown: Vec<u32>,
    pub(crate) delay: u32,
}

/// The counts of the pictures that begin with these slices.
pub(crate) fn counts_by(alloc: Global, sps: &Sps, firsts: &[Slice]) -> Result<Vec<i64>, NoMemory>
    requires { length firsts.now ≤ most_frames }
    ensures { IfOk result (λ counts. counts.items ≡ counts_of (rule_of sps.now) nothing firsts.now) }
{
    let mut counter = Counts::new(sps);
    let mut counts = Vec::new(alloc);
    for first in firsts {
        counts.push(counter.next(first))?;
    }
    Ok(counts)
}

/// Which of them are IDR pictures.
pub(crate) fn syncs_of(alloc: Global, firsts: &[Slice]) -> Result<Vec<bool>, NoMemory>
    ensures { IfOk result (λ syncs. syncs.items ≡ map (λ (first : First). first.idr) firsts.now) }
{
    let mut syncs = Vec::new(alloc);
    for first in firsts {
        syncs.push(first.idr)?;
    }
    Ok(syncs)
}

/// The order of pictures with these counts, where the first picture of each sequence is marked.
///
/// `Tie` where two pictures of one sequence have one count.
#[tactic(auto, using(crate::proofs::Tying::no_tie))]
pub(crate) fn order_of(alloc: Global, counts: &[i64], syncs: &[bool]) -> Result<Order, RankFail>
    requires { AreMarked (length counts.now) syncs.now }
    ensures shown { IfOk result (λ order. order.shown.items
        ≡ map (shown_at counts.now syncs.now) (range_with_len 0 (length counts.now))) }
    ensures delay { IfOk result (λ order. order.delay ≡ latest counts.now syncs.now (length counts.now)) }
    ensures untied { OnOk result (first_tie counts.now syncs.now (length counts.now) ≡ None) }
    ensures tied { (k : ℕ) → result ≡ Err (RankFail.Tie k)
        → first_tie counts.now syncs.now (length counts.now) ≡ Some k }
{
    let ranks = match ranks(alloc, counts, syncs) {
        Ok(ranks) => ranks,
        Err(fail) => return Err(fail),
    };
    let delay = delay_of(&ranks, syncs);
    match shown_by(alloc, &ranks, syncs) {
        Ok(shown) => Ok(Order { shown, delay }),
        Err(_) => Err(RankFail::NoMemory),
    }
}

/// Each rank behind the pictures of the sequences before.
fn shown_by(alloc: Global, ranks: &[u32], syncs: &[bool]) -> Result<Vec<u32>, NoMemory>
    requires each { length ranks.now ≡ length syncs.now }
    requires few { length ranks.now ≤ most_frames }
    requires small { All (λ rank. rank ≤ most_frames) ranks.now }
    ensures { IfOk result (λ shown. shown.items
        ≡ map (λ k. begin_of syncs.now k + slice_index ranks.now k) (range_with_len 0 (length ranks.now))) }
{
    let mut shown = Vec::new(alloc);
    let mut first: u32 = 0;
    for k in 0..ranks.len() {
        first = begin_in(syncs, first, k);
        shown.push(place_in(first, ranks[k]))?;
    }
    Ok(shown)
}

/// The picture with which the sequence of picture k begins, where that of the picture before it begins at `first`.
#[tactic(auto, using(crate::proofs::Showing::begin_step, crate::proofs::Showing::begin_few))]
fn begin_in(syncs: &[bool], first: u32, k: usize) -> u32
    requires inside { k < length syncs.now }
    requires few { k ≤ most_frames }
    requires before { first ≡ begin_of syncs.now (k - 1) }
    ensures begin { result ≡ begin_of syncs.now k }
    ensures few { result ≤ k }
{
    if k > 0 && syncs[k] { k as u32 } else { first }
}

/// The number of a picture of that rank.
fn place_in(first: u32, rank: u32) -> u32
    requires first { first ≤ most_frames }
    requires rank { rank ≤ most_frames }
    ensures { result ≡ first + rank }
{
    first + rank
}

/// Number k of these.
pub(crate) fn number_at(numbers: &[u32], k: usize) -> u32
    requires { k < length numbers.now }
    ensures { result ≡ slice_index numbers.now k }
{
    numbers[k]
}

/// Mark k of these.
pub(crate) fn mark_at(marks: &[bool], k: usize) -> bool
    requires { k < length marks.now }
    ensures { result ≡ is_sync marks.now k }
{
    marks[k]
}
