//! Ranks: how many pictures of a sequence have a lower count. The code sorts.
ghost use Rattle.std.specs.Prelude.{◌≡◌, ◌≢◌, ℕ, ℤ, int_lt, Ok, Err, OnOk, ◌+◌, ◌<◌, ◌≤◌, List, length, map, ◌++◌, IfOk};
ghost use Rattle.avc_order.specs.Sequence.{AreMarked};
ghost use Rattle.avc_order.specs.Ranks.{lower, count_at, AreRanks, AreDistinct, IsTie};
ghost use Rattle.avc_order.specs.Rising.{Rises, AreAllDistinct, IsTieBehind};

use crate::sequence::end_of;
use std::alloc::{AllocError, Global};

/// Why pictures have no ranks.
#[derive(Clone, Copy, Debug, PartialEq, Eq)]
pub enum RankFail {
    /// The first picture whose count an earlier one of its sequence has.
    Tie { picture: u32 },
    NoMemory,
}

/// The rank of each picture: how many pictures of its sequence have a lower count, where `syncs` marks
/// those with which sequences begin.
///
/// `Tie` where two pictures of one sequence have one count.
pub fn ranks(alloc: Global, counts: &[i64], syncs: &[bool]) -> Result<Vec<u32>, RankFail>
    requires { AreMarked (length counts.now) syncs.now }
    ensures ranks { IfOk result (λ v. AreRanks counts.now syncs.now v.items) }
    ensures distinct { OnOk result (AreDistinct counts.now syncs.now (length counts.now)) }
    ensures tie { (picture : ℕ) → result ≡ Err (RankFail.Tie picture) → IsTie counts.now syncs.now picture }
{
    let mut ranks = Vec::new(alloc);
    let mut first = 0;
    while first < counts.len() {
        let end = end_of(syncs, first);
        match append_ranks(alloc, &counts[first..end], first, &mut ranks) {
            Ok(()) => {}
            Err(fail) => return Err(fail),
        }
        first = end;
    }
    Ok(ranks)
}

// Appends the ranks of one sequence, whose first picture has that number.
fn append_ranks(
    alloc: Global,
    counts: &[i64],
    first: usize,
    ranks: &mut Vec<u32>,
) -> Result<(), RankFail>
    requires few { length counts.now ≤ 8388608 }
    requires first { first ≤ 8388608 }
    ensures ranks { OnOk result (ranks.new.items ≡ ranks.old.items ++ map (λ c. lower c counts.now) counts.now) }
    ensures distinct { OnOk result (AreAllDistinct counts.now (length counts.now)) }
    ensures tie { (picture : ℕ) → result ≡ Err (RankFail.Tie picture) → IsTieBehind counts.now first picture }
{
    let Ok(sorted) = sorted_counts(alloc, counts) else {
        return Err(RankFail::NoMemory);
    };
    let Ok(mut taken) = vec![in alloc; false; counts.len()] else {
        return Err(RankFail::NoMemory);
    };
    for i in 0..counts.len() {
        let rank = rank_in(&sorted, counts, i);
        if taken[rank] {
            return Err(RankFail::Tie {
                picture: (first + i) as u32,
            });
        }
        taken[rank] = true;
        if ranks.push(rank as u32).is_err() {
            return Err(RankFail::NoMemory);
        }
    }
    Ok(())
}

// The counts, rising.
fn sorted_counts(alloc: Global, counts: &[i64]) -> Result<Vec<i64>, AllocError>
    ensures rises { IfOk result (λ v. Rises v.items) }
    ensures same { IfOk result (λ v. (c : ℤ) → lower c v.items ≡ lower c counts.now) }
{
    let mut sorted = Vec::from_slice(alloc, counts)?;
    sorted.sort_unstable();
    Ok(sorted)
}

// The rank of one of the counts.
fn rank_in(sorted: &[i64], counts: &[i64], at: usize) -> usize
    requires rises { Rises sorted.now }
    requires same { (c : ℤ) → lower c sorted.now ≡ lower c counts.now }
    requires within { at < length counts.now }
    ensures rank { result ≡ lower (count_at counts.now at) counts.now }
    ensures small { result < length counts.now }
{
    lower_in(sorted, &counts[at])
}

// How many numbers of a rising list are lower.
fn lower_in(sorted: &[i64], count: &i64) -> usize
    requires { Rises sorted.now }
    ensures { result ≡ lower count.now sorted.now }
{
    let mut low = 0;
    let mut high = sorted.len();
    while low < high {
        let mid = low + (high - low) / 2;
        if is_lower(sorted, mid, count) {
            low = mid + 1;
        } else {
            high = mid;
        }
    }
    low
}

// The number at that place is lower.
fn is_lower(sorted: &[i64], at: usize, count: &i64) -> bool
    requires { at < length sorted.now }
    ensures { result ≡ int_lt (count_at sorted.now at) count.now }
{
    let limit = *count;
    sorted[at] < limit
}
