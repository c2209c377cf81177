//! Units without the bytes that keep start codes out of them.
ghost use Rattle.std.specs.Prelude.{◌≡◌, ◌≤◌, ℕ, List, ◌∷◌, None, IfSome, IfOk};
ghost use Rattle.avc_units.specs.Emulation.{clean, clean_behind};

use mp_ports::NoMemory;
use std::alloc::Global;

/// A unit without its emulation prevention bytes: each 03 that follows two zeros (H.264, 7.3.1).
///
/// `NoMemory` where there is no room for them.
pub fn clean(alloc: Global, unit: &[u8]) -> Result<Vec<u8>, NoMemory>
    ensures { IfOk result (λ cleaned. cleaned.items ≡ clean unit.now) }
{
    let mut cleaned = Vec::new(alloc);
    let mut zeros = 0;
    for byte in unit {
        match zeros_after(zeros, *byte) {
            Some(more) => {
                cleaned.push(*byte)?;
                zeros = more;
            }
            None => zeros = 0,
        }
    }
    Ok(cleaned)
}

// How many zeros stand last behind one more byte, as far as two; none where the byte is removed.
fn zeros_after(zeros: usize, byte: u8) -> Option<usize>
    requires { zeros ≤ 2 }
    ensures kept { IfSome result (λ n. (n ≤ 2)
        × ((rest : List ℕ) → clean_behind zeros (byte ∷ rest) ≡ byte ∷ clean_behind n rest)) }
    ensures removed { result ≡ None → (rest : List ℕ) → clean_behind zeros (byte ∷ rest) ≡ clean_behind 0 rest }
{
    if zeros == 2 && byte == 3 {
        return None;
    }
    if byte != 0 {
        return Some(0);
    }
    if zeros < 2 {
        return Some(zeros + 1);
    }
    Some(2)
}
