//! Whether one of many spans of a media has a tick in common with a sample, by one search.

ghost use Rattle.std.specs.Prelude.{◌≡◌, ℕ, List, max, nat_lt};
ghost use Rattle.std.specs.List.{list_any};
ghost use Rattle.std.specs.List.Sorted.{IsNonDecreasingBy, IsPermutation};
ghost use Rattle.mp_clip.specs.declared.touching.Span.{Span};
ghost use Rattle.mp_clip.specs.Touched.{touches};
ghost use Rattle.cut_op.specs.Reach.{AreInOrder, reaching, touches_any};

use mp_clip::Span;

/// Puts spans in the order in which they start, and lets each end where the latest of those up to it ends.
///
/// So spans that start early enough reach as far as the last of them says.
pub(crate) fn put_in_order(spans: &mut [Span])
    ensures { AreInOrder spans.old spans.new }
{
    sort(spans);
    reach(spans);
}

/// Puts spans in the order in which they start.
fn sort(spans: &mut [Span])
    ensures same { IsPermutation spans.old spans.new }
    ensures order { IsNonDecreasingBy (λ span. span.from) spans.new }
{
    spans.sort_unstable_by_key(|span| span.from);
}

/// Lets each span end where the latest of those up to it ends.
fn reach(spans: &mut [Span])
    ensures { spans.new ≡ reaching 0 spans.old }
{
    let mut latest = 0;
    for span in spans.iter_mut() {
        latest = reach_one(span, latest);
    }
}

/// Lets a span end not before the latest of those before it; answers the latest with it.
fn reach_one(span: &mut Span, latest: u128) -> u128
    ensures latest { result ≡ max span.old.to latest }
    ensures span { span.new ≡ record span.old { to = result } }
{
    span.to = span.to.max(latest);
    span.to
}

/// How far the spans reach, which are in order so, that start before `end`; 0 where none does.
fn reach_before(spans: &[Span], end: u128) -> u128
    requires { IsNonDecreasingBy (λ span. span.from) spans.now }
    ensures { (those : List Span) (start : ℕ) → AreInOrder those spans.now
        → list_any (touches start end) those ≡ nat_lt start result }
{
    let before = spans.partition_point(|span| span.from < end);
    if before == 0 {
        return 0;
    }
    spans[before - 1].to
}

/// Whether one of the spans, which are in order so, has a tick in common with those from `start` up to, and
/// without, `end`.
pub(crate) fn meets_any(spans: &[Span], start: u128, end: u128) -> bool
    requires { IsNonDecreasingBy (λ span. span.from) spans.now }
    ensures { (those : List Span) → AreInOrder those spans.now → result ≡ touches_any start end those }
{
    start < end && start < reach_before(spans, end)
}
