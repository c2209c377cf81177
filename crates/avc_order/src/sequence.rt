//! Coded video sequences.
ghost use Rattle.std.specs.Prelude.{◌≡◌, ◌-◌, ◌<◌, ◌≤◌, true, length};
ghost use Rattle.avc_order.specs.Sequence.{IsSequence, BeginsAt, is_sync};

// Where the sequence ends that begins at that sync picture.
pub(crate) fn end_of(syncs: &[bool], first: usize) -> usize
    requires within { first < length syncs.now }
    requires sync { is_sync syncs.now first ≡ true }
    ensures { IsSequence syncs.now first result }
{
    let mut end = first + 1;
    while end < syncs.len() && !syncs[end] {
        end += 1;
    }
    end
}

// Where the sequence of a picture begins, where that of the picture before it begins at `first`.
pub(crate) fn begin_of(syncs: &[bool], first: usize, picture: usize) -> usize
    requires within { picture < length syncs.now }
    requires starts { picture ≡ 0 → is_sync syncs.now 0 ≡ true }
    requires before { 0 < picture → BeginsAt syncs.now first (picture - 1) }
    ensures { BeginsAt syncs.now result picture }
{
    if syncs[picture] {
        return picture;
    }
    first
}
