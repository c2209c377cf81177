// What the argument of an option asks for.
ghost use Rattle.std.specs.Prelude.{◌≡◌, Some, IfOk, option_map, option_copied};
ghost use Rattle.mp_words.specs.Jobs.{Enables, asked};
ghost use Rattle.mp_words.specs.Numbers.{positive_of};
ghost use Rattle.mp_words.specs.Arguments.{choice_of, selected, rate_at, rated, added_from, letters_of, asked_by};
ghost use Rattle.mp_words.specs.Marks.{first_place};

use crate::job::{Rate, What};
use crate::name::{FileKind, is_mp4_name, kind_of};
use crate::number::{milliseconds_of, positive_of, seconds_of};
use crate::options::LineOption;
use crate::text::{first_place, split_last};
use std::alloc::{AllocError, Global};
use track_ops::Choice;

/// What the option asks for by its argument; `None` where the argument isn't as the option wants it.
pub fn asked_by(
    alloc: Global,
    option: LineOption,
    argument: &str,
) -> Result<Option<What>, AllocError>
    ensures { IfOk result (λ what. option_map asked what ≡ asked_by option argument.now) }
{
    match option {
        LineOption::Add => added(alloc, argument),
        LineOption::Cat => joined(alloc, argument),
        LineOption::Rem => Ok(removed(argument.as_bytes())),
        LineOption::Delay => Ok(delayed(argument.as_bytes())),
        LineOption::SplitChunk => Ok(cut(argument.as_bytes())),
        LineOption::TrackScale => Ok(track_scaled(argument.as_bytes())),
        LineOption::MovieScale => Ok(movie_scaled(argument.as_bytes())),
        LineOption::Lang => Ok(named_language(argument.as_bytes())),
        LineOption::Enable => Ok(enabled(argument.as_bytes(), true)),
        LineOption::Disable => Ok(enabled(argument.as_bytes(), false)),
        _ => Ok(None),
    }
}

fn added(alloc: Global, argument: &str) -> Result<Option<What>, AllocError>
    ensures { IfOk result (λ what. option_map asked what ≡ asked_by LineOption.Add argument.now) }
{
    let (text, rate) = split_last(argument, b":fps=");
    added_from(alloc, text, rate)
}

fn added_from(alloc: Global, text: &str, rate: Option<&[u8]>) -> Result<Option<What>, AllocError>
    ensures { IfOk result (λ what. option_map asked what ≡ added_from text.now (option_copied rate.entry)) }
{
    let (name, selector) = split_last(text, b"#");
    let Some(kind) = kind_of(name) else {
        return Ok(None);
    };
    let (Some(choice), Some(rate)) = (selected(kind, selector), rated(kind, rate)) else {
        return Ok(None);
    };
    let name = String::from_str(alloc, name)?;
    Ok(Some(What::Add { name, choice, rate }))
}

/// The tracks that a selector chooses, all without one. Only an MP4 file has one.
fn selected(kind: FileKind, selector: Option<&[u8]>) -> Option<Choice>
    ensures { result ≡ selected (Some kind) (option_copied selector.entry) }
{
    match selector {
        None => Some(Choice::All),
        Some(text) if matches!(kind, FileKind::Mp4) => choice_of(text),
        Some(_) => None,
    }
}

fn choice_of(text: &[u8]) -> Option<Choice>
    ensures { result ≡ choice_of text.now }
{
    match text {
        b"video" => Some(Choice::Video),
        b"audio" => Some(Choice::Audio),
        _ => Some(Choice::Number(positive_of(text)?)),
    }
}

/// The rate of a stream of H.264, if there is one.
fn rated(kind: FileKind, rate: Option<&[u8]>) -> Option<Option<Rate>>
    ensures { result ≡ rated (Some kind) (option_copied rate.entry) }
{
    match rate {
        None => Some(None),
        Some(text) if matches!(kind, FileKind::Avc) => Some(Some(rate_of(text)?)),
        Some(_) => None,
    }
}

fn rate_of(text: &[u8]) -> Option<Rate>
    ensures { result ≡ rate_at (first_place 47 text.now) text.now }
{
    let Some(stroke) = first_place(text, b'/') else {
        let num = positive_of(text)?;
        return Some(Rate { num, den: 1 });
    };
    let num = positive_of(&text[..stroke])?;
    let den = positive_of(&text[stroke + 1..])?;
    Some(Rate { num, den })
}

fn joined(alloc: Global, argument: &str) -> Result<Option<What>, AllocError>
    ensures { IfOk result (λ what. option_map asked what ≡ asked_by LineOption.Cat argument.now) }
{
    if !is_mp4_name(argument) {
        return Ok(None);
    }
    let name = String::from_str(alloc, argument)?;
    Ok(Some(What::Cat { name }))
}

fn removed(argument: &[u8]) -> Option<What>
    ensures { option_map asked result ≡ asked_by LineOption.Rem argument.now }
{
    let number = positive_of(argument)?;
    Some(What::Rem { number })
}

fn delayed(argument: &[u8]) -> Option<What>
    ensures { option_map asked result ≡ asked_by LineOption.Delay argument.now }
{
    let at = first_place(argument, b'=')?;
    let number = positive_of(&argument[..at])?;
    let ms = milliseconds_of(&argument[at + 1..])?;
    Some(What::Delay { number, ms })
}

fn cut(argument: &[u8]) -> Option<What>
    ensures { option_map asked result ≡ asked_by LineOption.SplitChunk argument.now }
{
    let at = first_place(argument, b':')?;
    let from = seconds_of(&argument[..at])?;
    let to = seconds_of(&argument[at + 1..])?;
    Some(What::Cut { from, to })
}

fn track_scaled(argument: &[u8]) -> Option<What>
    ensures { option_map asked result ≡ asked_by LineOption.TrackScale argument.now }
{
    let at = first_place(argument, b'=')?;
    let number = positive_of(&argument[..at])?;
    let scale = positive_of(&argument[at + 1..])?;
    Some(What::TrackScale { number, scale })
}

fn movie_scaled(argument: &[u8]) -> Option<What>
    ensures { option_map asked result ≡ asked_by LineOption.MovieScale argument.now }
{
    let scale = positive_of(argument)?;
    Some(What::MovieScale { scale })
}

fn named_language(argument: &[u8]) -> Option<What>
    ensures { option_map asked result ≡ asked_by LineOption.Lang argument.now }
{
    let at = first_place(argument, b'=')?;
    let number = positive_of(&argument[..at])?;
    let letters = letters_of(&argument[at + 1..])?;
    Some(What::Lang { number, letters })
}

fn letters_of(text: &[u8]) -> Option<[u8; 3]>
    ensures { result ≡ letters_of text.now }
{
    match text {
        [a @ b'a'..=b'z', b @ b'a'..=b'z', c @ b'a'..=b'z'] => Some([*a, *b, *c]),
        _ => None,
    }
}

fn enabled(argument: &[u8], on: bool) -> Option<What>
    ensures { option_map asked result ≡ option_map (λ track. Enables track on) (positive_of argument.now) }
{
    let number = positive_of(argument)?;
    Some(What::Enabled { number, on })
}
