// Numbers as the words of a line write them.
ghost use Rattle.std.specs.Prelude.{◌≡◌, ◌≤◌, ◌<◌, ◌^◌, length, true};
ghost use Rattle.std.specs.Char.{is_ascii_digit};
ghost use Rattle.std.specs.List.{list_all};
ghost use Rattle.std.specs.Str.Parse.{digits_value};
ghost use Rattle.mp_words.specs.Numbers.{are_digits, number_in, number_of, positive_of, milliseconds_of, with_places, seconds_of};

use crate::text::first_place;
use mp_frac::Frac;

/// One decimal digit to so many, and nothing else.
fn are_digits(text: &[u8], most: usize) -> bool
    ensures { result ≡ are_digits most text.now }
{
    if text.is_empty() || text.len() > most {
        return false;
    }
    all_digits(text)
}

fn all_digits(text: &[u8]) -> bool
    ensures { result ≡ list_all is_ascii_digit text.now }
{
    text.iter().all(|c| c.is_ascii_digit())
}

/// The number that up to ten decimal digits write.
fn digits_value(digits: &[u8]) -> u64
    requires digits { list_all is_ascii_digit digits.now ≡ true }
    requires few { length digits.now ≤ 10 }
    ensures { result ≡ digits_value 10 digits.now }
{
    let mut value = 0;
    for digit in digits {
        value = value * 10 + u64::from(*digit - b'0');
    }
    value
}

/// A number from the least to the most, in 1 to 10 decimal digits.
pub fn number_in(text: &[u8], least: u32, most: u32) -> Option<u32>
    ensures { result ≡ number_in least most text.now }
{
    if !are_digits(text, 10) {
        return None;
    }
    let value = digits_value(text);
    if value < u64::from(least) || value > u64::from(most) {
        return None;
    }
    Some(value as u32)
}

/// A number up to 4,294,967,295.
pub fn number_of(text: &[u8]) -> Option<u32>
    ensures { result ≡ number_of text.now }
{
    number_in(text, 0, u32::MAX)
}

/// A number up to 4,294,967,295 that isn't 0.
pub fn positive_of(text: &[u8]) -> Option<u32>
    ensures { result ≡ positive_of text.now }
{
    number_in(text, 1, u32::MAX)
}

/// A number up to 2,147,483,647, with or without a minus in front.
pub fn milliseconds_of(text: &[u8]) -> Option<i32>
    ensures { result ≡ milliseconds_of text.now }
{
    if text.first() == Some(&b'-') {
        let number = number_in(&text[1..], 0, i32::MAX as u32)?;
        return Some(-(number as i32));
    }
    let number = number_in(text, 0, i32::MAX as u32)?;
    Some(number as i32)
}

/// A number of seconds, with or without 1 to 9 decimal places. The scale has as many zeros as there are places.
pub fn seconds_of(text: &[u8]) -> Option<Frac>
    ensures { result ≡ seconds_of text.now }
{
    let Some(point) = first_place(text, b'.') else {
        let whole = number_of(text)?;
        return Some(Frac {
            n: i128::from(whole),
            d: 1,
        });
    };
    let whole = number_of(&text[..point])?;
    with_places(whole, &text[point + 1..])
}

fn with_places(whole: u32, places: &[u8]) -> Option<Frac>
    ensures { result ≡ with_places (Some whole) places.now }
{
    if !are_digits(places, 9) {
        return None;
    }
    let d = 10_u32.pow(places.len() as u32);
    let n = i128::from(whole) * i128::from(d) + i128::from(digits_value(places));
    Some(Frac { n, d })
}
