//! The sum of a file.

ghost use Rattle.std.specs.Prelude.{◌≡◌};
ghost use Rattle.generator.specs.Sum.{mixed, sum_from, sum_of, start};

/// One more byte is mixed in.
#[tactic(auto, unfolding(crate::specs::Sum::mixed))]
fn mixed(sum: u64, byte: u8) -> u64
    ensures { result ≡ mixed sum byte }
{
    (sum ^ u64::from(byte)).wrapping_mul(1_099_511_628_211)
}

/// The sum of all bytes, FNV-1a of 64 bits.
pub fn sum_of(bytes: &[u8]) -> u64
    ensures { result ≡ sum_of bytes.now }
{
    let mut sum = 14_695_981_039_346_656_037;
    for byte in bytes {
        sum = mixed(sum, *byte);
    }
    sum
}
