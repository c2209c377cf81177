//! Fields that are read from left to right (ISO/IEC 14496-12, 4.2): each reader answers a value and
//! what is behind it, and refuses with `TableLength` where too few bytes are left.

ghost use Rattle.std.specs.Prelude.{◌≡◌, length, IfOk, Some};
ghost use Rattle.mp_ports.specs.Gives.{Gives};
ghost use Rattle.mp_boxes.specs.Reading.{next_bytes, next_time, next_u16, next_u32, next_u64};

use crate::number::{u16_in, u32_in, u64_in};
use mp_ports::Code;

/// The next bytes, so many.
#[tactic(auto, unfolding(crate::specs::Reading::next_bytes))]
pub fn next_bytes(text: &[u8], count: usize) -> Result<(&[u8], &[u8]), Code>
    ensures next { Gives Some (λ next. (next.0.now, next.1.now)) result (next_bytes count text.now) }
    ensures count { IfOk result (λ next. length next.0.now ≡ count) }
{
    if text.len() < count {
        return Err(Code::TableLength);
    }
    Ok(text.split_at(count))
}

/// The next number of 16 bits.
#[tactic(auto, unfolding(crate::specs::Reading::next_u16))]
pub fn next_u16(text: &[u8]) -> Result<(u16, &[u8]), Code>
    ensures { Gives Some (λ next. (next.0, next.1.now)) result (next_u16 text.now) }
{
    let (number, rest) = next_bytes(text, 2)?;
    Ok((u16_in(number, 0), rest))
}

/// The next number of 32 bits.
#[tactic(auto, unfolding(crate::specs::Reading::next_u32))]
pub fn next_u32(text: &[u8]) -> Result<(u32, &[u8]), Code>
    ensures { Gives Some (λ next. (next.0, next.1.now)) result (next_u32 text.now) }
{
    let (number, rest) = next_bytes(text, 4)?;
    Ok((u32_in(number, 0), rest))
}

/// The next number of 64 bits.
#[tactic(auto, unfolding(crate::specs::Reading::next_u64))]
pub fn next_u64(text: &[u8]) -> Result<(u64, &[u8]), Code>
    ensures { Gives Some (λ next. (next.0, next.1.now)) result (next_u64 text.now) }
{
    let (number, rest) = next_bytes(text, 8)?;
    Ok((u64_in(number, 0), rest))
}

/// The next time or duration: 64 bits in version 1 of its box, 32 in version 0.
#[tactic(auto, unfolding(crate::specs::Reading::next_time))]
pub fn next_time(text: &[u8], wide: bool) -> Result<(u64, &[u8]), Code>
    ensures { Gives Some (λ next. (next.0, next.1.now)) result (next_time wide text.now) }
{
    if wide {
        next_u64(text)
    } else {
        let (number, rest) = next_u32(text)?;
        Ok((u64::from(number), rest))
    }
}
