//! Laws of the order: calls that do nothing, whose contracts are the laws.

ghost use Rattle.std.specs.Prelude.{◌≡◌, ◌∷◌, []};
ghost use Rattle.mp_interleave.specs.Example.{three_fine, three_in_turn, three_tracks, three_whole, two_in_turn, two_tracks, two_whole};
ghost use Rattle.mp_interleave.specs.Law.{PlansStandForChunks, SamplesStandInChunks};
ghost use Rattle.mp_interleave.specs.Order.{planned};
ghost use Rattle.mp_interleave.specs.Place.{first_left};

/// Each sample of a movie stands in one chunk, and the samples of a chunk are of one entry.
pub fn samples_stand_in_chunks()
    ensures { SamplesStandInChunks }
{}

/// The chunks of a movie as it is kept are those of each movie that it stands for, whatever bytes its files
/// have.
pub fn plans_stand_for_chunks()
    ensures { PlansStandForChunks }
{}

/// Chunks that were worked out by hand, in windows of half a second, of a millisecond, of the greatest length
/// and in one window; and the place behind the last one.
pub fn chunks_by_hand_are_planned()
    ensures half { planned 500 two_tracks ≡ two_in_turn }
    ensures one { planned 0 two_tracks ≡ two_whole }
    ensures greatest { planned 4294967295 two_tracks ≡ two_whole }
    ensures borders { planned 500 three_tracks ≡ three_in_turn }
    ensures whole { planned 0 three_tracks ≡ three_whole }
    ensures fine { planned 1 three_tracks ≡ three_fine }
    ensures last { first_left two_in_turn 2 ≡ 5 ∷ 3 ∷ [] }
{}
