//! The numbers of tracks that are added.

ghost use Rattle.std.specs.Prelude.{◌≡◌, IfOk};
ghost use Rattle.mp_frac.specs.Divisors.{most, up_to};
ghost use Rattle.mp_ports.specs.Gives.{Gives, refusal};
ghost use Rattle.mp_movie.specs.Durations.{greatest};
ghost use Rattle.track_ops.specs.Kept.{kept_chosen, kept_numbers, numbered};
ghost use Rattle.track_ops.specs.Numbers.{is_taken, number_for, numbers_for};

use crate::chosen::{Choice, is_chosen};
use mp_movie::Track;
use mp_ports::{Bad, Code, Fail, NoMemory};
use std::alloc::Global;

/// The numbers of the tracks, and behind them those that the chosen further ones get.
///
/// `IdLimit` where one of these is above 4,294,967,295.
pub(crate) fn all_numbers(
    alloc: Global,
    tracks: &[Track],
    others: &[Track],
    choice: Choice,
) -> Result<Vec<u32>, Fail>
    ensures { Gives refusal (λ numbers. numbers.items) result
        (numbered (kept_numbers tracks.now)
        (numbers_for (kept_numbers tracks.now) (kept_numbers (kept_chosen choice others.now)))) }
{
    let mut numbers = own_numbers(alloc, tracks).map_err(|_| Fail::NoMemory)?;
    push_numbers(&mut numbers, others, choice)?;
    Ok(numbers)
}

/// The numbers of the tracks.
fn own_numbers(alloc: Global, tracks: &[Track]) -> Result<Vec<u32>, NoMemory>
    ensures { IfOk result (λ numbers. numbers.items ≡ kept_numbers tracks.now) }
{
    let mut numbers = Vec::new(alloc);
    for track in tracks {
        numbers.push(track.number).map_err(|_| NoMemory)?;
    }
    Ok(numbers)
}

/// The numbers that the chosen tracks get follow.
fn push_numbers(numbers: &mut Vec<u32>, tracks: &[Track], choice: Choice) -> Result<(), Fail>
    ensures { Gives refusal (λ done. numbers.new.items) result
        (numbered numbers.old.items (numbers_for numbers.old.items (kept_numbers (kept_chosen choice tracks.now)))) }
{
    for track in tracks {
        if is_chosen(choice, track) {
            let Some(number) = number_for(numbers, track.number) else {
                return Err(Fail::Bad(Bad::at(Code::IdLimit, 0)));
            };
            if numbers.push(number).is_err() {
                return Err(Fail::NoMemory);
            }
        }
    }
    Ok(())
}

/// The number of a further track; `None` where it is above 4,294,967,295.
fn number_for(numbers: &[u32], number: u32) -> Option<u32>
    ensures { result ≡ up_to most (number_for numbers.now number) }
{
    if is_taken(numbers, number) {
        greatest(numbers).checked_add(1)
    } else {
        Some(number)
    }
}

/// Whether one of the numbers is that one.
fn is_taken(numbers: &[u32], number: u32) -> bool
    ensures { result ≡ is_taken numbers.now number }
{
    numbers.iter().any(|other| *other == number)
}

/// The greatest of the numbers, or 0.
fn greatest(numbers: &[u32]) -> u32
    ensures { result ≡ greatest numbers.now }
{
    let mut most = 0;
    for number in numbers {
        most = (*number).max(most);
    }
    most
}
