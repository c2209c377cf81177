//! Laws of access units and of sequences: calls that do nothing, whose contracts are the laws.
ghost use Rattle.std.specs.Prelude.{ℕ, ◌<◌, List, length};
ghost use Rattle.avc_order.specs.declared.access.NalUnit.{NalUnit};
ghost use Rattle.avc_order.specs.Access.{AreAccessUnits, AreCutAt};
ghost use Rattle.avc_order.specs.Sequence.{AreMarked, StandsInOne};

/// Units are cut exactly where an access unit starts; what is said of each unit goes with it.
pub fn access_units_are_cut<A>()
    ensures joined { (units : List (NalUnit × A)) → AreAccessUnits units }
    ensures cut { (before behind : List (NalUnit × A)) (unit : NalUnit × A) → AreCutAt before unit behind }
{}

/// Each picture stands in one sequence, which begins with a sync picture, and in no other.
pub fn pictures_in_sequences(syncs: &[bool])
    requires { AreMarked (length syncs.now) syncs.now }
    ensures { (picture : ℕ) → picture < length syncs.now → StandsInOne syncs.now picture }
{}
