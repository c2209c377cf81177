//! The delay of showing.
ghost use Rattle.std.specs.Prelude.{◌≡◌, length};
ghost use Rattle.avc_order.specs.Sequence.{AreMarked};
ghost use Rattle.avc_order.specs.Delay.{IsDelay};

use crate::sequence::begin_of;

/// The least number of pictures by which showing must be later than decoding, so that none is shown
/// before it is decoded, by the rank of each picture in its sequence.
pub fn delay_of(ranks: &[u32], syncs: &[bool]) -> u32
    requires { AreMarked (length ranks.now) syncs.now }
    ensures { IsDelay ranks.now syncs.now result }
{
    let mut first = 0;
    let mut delay = 0;
    for i in 0..ranks.len() {
        first = begin_of(syncs, first, i);
        delay = delay.max((i - first).saturating_sub(ranks[i] as usize));
    }
    delay as u32
}
