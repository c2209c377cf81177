// Texts that a mark divides.
ghost use Rattle.std.specs.Prelude.{◌≡◌, ◌+◌, ◌<◌, ◌≤◌, IsTrue, nat_eq, drop, length, slice_index, IfSome, option_copied};
ghost use Rattle.std.specs.List.{starts_with};
ghost use Rattle.std.specs.Str.{IsCharBoundary};
ghost use Rattle.mp_words.specs.Marks.{first_place, last_place, before_last, behind_last};

/// The first place of a byte.
pub fn first_place(text: &[u8], mark: u8) -> Option<usize>
    ensures { result ≡ first_place mark text.now }
{
    text.iter().position(|c| *c == mark)
}

/// The last place at which the text goes on with the mark, which is of ASCII.
fn last_place(text: &str, mark: &[u8]) -> Option<usize>
    requires some { 0 < length mark.now }
    requires ascii { slice_index mark.now 0 < 128 }
    ensures place { result ≡ last_place mark.now text.now }
    ensures boundary { IfSome result (λ at. IsCharBoundary text.now at) }
    ensures inside { IfSome result (λ at. at + length mark.now ≤ length text.now) }
{
    let mut at = text.len();
    while at > 0 {
        at -= 1;
        if goes_on(text.as_bytes(), at, mark) {
            return Some(at);
        }
    }
    None
}

/// The text goes on with the mark at that place.
fn goes_on(text: &[u8], at: usize, mark: &[u8]) -> bool
    requires { at ≤ length text.now }
    ensures goes_on { result ≡ starts_with nat_eq (drop at text.now) mark.now }
    ensures inside { IsTrue result → at + length mark.now ≤ length text.now }
{
    text[at..].starts_with(mark)
}

/// The text before the last place of the mark, or all of it, and the text behind that place.
pub fn split_last<'a>(text: &'a str, mark: &[u8]) -> (&'a str, Option<&'a [u8]>)
    requires some { 0 < length mark.now }
    requires ascii { slice_index mark.now 0 < 128 }
    ensures before { result.0.now ≡ before_last mark.now text.now }
    ensures behind { option_copied result.1 ≡ behind_last mark.now text.now }
{
    match last_place(text, mark) {
        None => (text, None),
        Some(at) => (&text[..at], Some(&text.as_bytes()[at + mark.len()..])),
    }
}
