//! Zeros and the ends of units in pieces of bytes.
ghost use Rattle.std.specs.Prelude.{◌≡◌, ◌+◌, ◌<◌, ◌≤◌, ℕ, List, ◌∷◌, ◌++◌, length, drop, None, IfSome, true, false};
ghost use Rattle.avc_units.specs.Reading.{zeros_of};
ghost use Rattle.avc_units.specs.Scan.{left_of, HoldsUnit};

// Where a piece leaves the search for a unit's end: how many of its bytes were passed, how many zeros were the last of
// them, and whether the unit ended two bytes before.
#[derive(Clone, Copy)]
pub(crate) struct Stand {
    pub(crate) used: usize,
    pub(crate) zeros: usize,
    pub(crate) ended: bool,
}

// A unit in a piece: the index of its first byte, and its length.
#[derive(Clone, Copy)]
pub(crate) struct Whole {
    pub(crate) from: usize,
    pub(crate) len: usize,
}

// The next unit, where it and what ends it stand in the piece.
pub(crate) fn unit_in(piece: &[u8]) -> Option<Whole>
    ensures { IfSome result (λ unit. HoldsUnit piece.now unit.from unit.len) }
{
    let zeros = zeros_in(piece);
    if zeros < 2 || piece.len() <= zeros || piece[zeros] != 1 {
        return None;
    }
    let stand = scan(0, &piece[zeros + 1..]);
    if !stand.ended || stand.used == 2 {
        return None;
    }
    Some(Whole {
        from: zeros + 1,
        len: stand.used - 2,
    })
}

// How many zeros stand in front.
pub(crate) fn zeros_in(piece: &[u8]) -> usize
    ensures { result ≡ zeros_of piece.now }
{
    // As in front of a start code.
    if piece.len() > 2 && piece[2] != 0 && piece[1] == 0 && piece[0] == 0 {
        return 2;
    }
    for (i, byte) in piece.iter().enumerate() {
        if *byte != 0 {
            return i;
        }
    }
    piece.len()
}

// Goes on in a unit of which `zeros` zeros were the last bytes seen.
pub(crate) fn scan(zeros: usize, piece: &[u8]) -> Stand
    requires { zeros ≤ 2 }
    ensures few { result.zeros ≤ 2 }
    ensures inside { result.zeros ≤ zeros + result.used }
    ensures ended { result.ended ≡ true → (2 ≤ zeros + result.used) × (result.used < length piece.now)
        × ((rest : List ℕ) → left_of zeros (piece.now ++ rest) + 2 ≡ zeros + result.used) }
    ensures more { result.ended ≡ false → (result.used ≡ length piece.now)
        × ((rest : List ℕ) → left_of zeros (piece.now ++ rest) + result.zeros
        ≡ zeros + result.used + left_of result.zeros rest) }
{
    let mut seen = zeros;
    let mut at = 0;
    while at < piece.len() {
        if seen == 0 {
            at = pass_plain(piece, at);
            if piece.len() - at > 2 {
                return Stand {
                    used: at + 2,
                    zeros: 2,
                    ended: true,
                };
            }
            if at == piece.len() {
                break;
            }
        }
        match seen_after(seen, piece[at]) {
            Some(more) => seen = more,
            None => {
                return Stand {
                    used: at,
                    zeros: seen,
                    ended: true,
                };
            }
        }
        at += 1;
    }
    Stand {
        used: piece.len(),
        zeros: seen,
        ended: false,
    }
}

// What one more byte of a unit does: `seen` zeros were the last bytes before it.
fn seen_after(seen: usize, byte: u8) -> Option<usize>
    requires { seen ≤ 2 }
    ensures further { IfSome result (λ n. (n ≤ 2) × (n ≤ seen + 1)
        × ((rest : List ℕ) → left_of seen (byte ∷ rest) + n ≡ seen + 1 + left_of n rest)) }
    ensures end { result ≡ None → (seen ≡ 2) × ((rest : List ℕ) → left_of seen (byte ∷ rest) ≡ 0) }
{
    if seen == 2 && byte < 2 {
        None
    } else if byte == 0 {
        Some(seen + 1)
    } else {
        Some(0)
    }
}

// The place behind the bytes from there on that can be passed: two zeros and a byte below 2 stand there, or fewer than
// three bytes are left.
fn pass_plain(piece: &[u8], from: usize) -> usize
    requires { from < length piece.now }
    ensures low { from ≤ result }
    ensures high { result ≤ length piece.now }
    ensures plain { (rest : List ℕ) → left_of 0 (drop from piece.now ++ rest) + from
        ≡ result + left_of 0 (drop result piece.now ++ rest) }
    ensures end { result + 2 < length piece.now
        → (rest : List ℕ) → left_of 0 (drop result piece.now ++ rest) ≡ 0 }
{
    let mut at = from;
    while piece.len() - at > 2 {
        match plain_at(piece, at) {
            Some(n) => at += n,
            None => return at,
        }
    }
    at
}

// How many bytes behind that place can be passed at once: three where the third is above 1, one where no
// two zeros stand there.
#[inline(always)]
fn plain_at(piece: &[u8], at: usize) -> Option<usize>
    requires { at + 2 < length piece.now }
    ensures further { IfSome result (λ n. (0 < n) × (at + n ≤ length piece.now)
        × ((rest : List ℕ) → left_of 0 (drop at piece.now ++ rest)
        ≡ n + left_of 0 (drop (at + n) piece.now ++ rest))) }
    ensures end { result ≡ None → (rest : List ℕ) → left_of 0 (drop at piece.now ++ rest) ≡ 0 }
{
    if piece[at + 2] > 1 {
        return Some(3);
    }
    if piece[at] != 0 {
        return Some(1);
    }
    if piece[at + 1] != 0 {
        return Some(1);
    }
    None
}
