//! The cut of a movie.

ghost use Rattle.std.specs.Prelude.{◌≡◌, ℕ, List, length, map, IfErr, IfOk, IfSome};
ghost use Rattle.std.specs.List.{Contains};
ghost use Rattle.mp_ports.specs.Checks.{placed};
ghost use Rattle.mp_ports.specs.Gives.{Gives, refusal};
ghost use Rattle.mp_movie.specs.StandsFor.{Hold, stands_for};
ghost use Rattle.mp_clip.specs.Clipped.{IsRange};
ghost use Rattle.cut_op.specs.Cut.{cut, cut_codes};
ghost use Rattle.cut_op.specs.Shows.{MovieShowsRange};

use crate::apply::apply;
use crate::law::cut_shows_the_range;
use crate::plan::{can_be_cut, make_plan};
use mp_frac::Frac;
use mp_movie::{Movie, columns_are_kept};
use mp_ports::Fail;
use std::alloc::Global;
use track_ops::least_scales_are_found;

/// The movie cut to the time from `from` up to `to`, both in seconds: its tracks show at each moment what they
/// showed that much behind `from`, and nothing at `to` and behind it.
///
/// `BadRange` where `from` isn't before `to`; `ScaleLimit` where the times of the cut movie that a scale tells are
/// together whole in no multiple of the old scale up to 4,294,967,295; then the first of `DeltaLimit`,
/// `OffsetLimit`, `DurationLimit` and `StartLimit` that the cut movie passes. There, and where memory is wanting,
/// the movie comes back as it was.
pub fn cut(alloc: Global, movie: Movie, from: Frac, to: Frac) -> Result<Movie, (Fail, Movie)>
    requires { IsRange from to }
    // For all files that hold its pieces, the movie stands for what the cut makes of what it stood for, or is
    // refused as the cut refuses it; and these files hold its pieces still.
    ensures gives { (files : List (List ℕ)) → Hold (map length files) movie
        → Gives (λ refused. refusal refused.0) (λ new. stands_for files new) result
        (placed 0 (cut from to (stands_for files movie))) }
    ensures held { (sizes : List ℕ) → Hold sizes movie → IfOk result (λ new. Hold sizes new) }
    ensures back { IfErr result (λ refused. refused.1 ≡ movie) }
    ensures codes { IfErr result (λ refused. IfSome (refusal refused.0) (λ bad. Contains cut_codes bad.code)) }
    // What the cut movie shows at each moment.
    ensures shows { (files : List (List ℕ)) → Hold (map length files) movie
        → IfOk result (λ new. MovieShowsRange from to (stands_for files movie) (stands_for files new)) }
{
    cut_shows_the_range();
    columns_are_kept();
    least_scales_are_found();
    can_be_cut(&movie);
    let plan = match make_plan(alloc, &movie, from, to) {
        Ok(plan) => plan,
        Err(fail) => return Err((fail, movie)),
    };
    let mut movie = movie;
    let mut parts = movie.take();
    apply(&mut parts, plan);
    Ok(Movie::from_parts(parts))
}
