//! The line that tells what was made of generated files.

ghost use Rattle.std.specs.Prelude.{◌≡◌, IfOk, string_bytes};
ghost use Rattle.generator.specs.Line.{generated, sixteen_digits};

use mp_ports::NoMemory;
use std::alloc::{AllocError, Global};

/// The samples of the track of pictures and of that of sound, and the bytes of the file.
#[derive(Clone, Copy)]
pub struct Counts {
    pub video: u64,
    pub audio: u64,
    pub bytes: u64,
}

/// The line for so many pictures: `gen N video V audio A bytes B sum H`.
#[tactic(auto, unfolding(crate::specs::Line::generated))]
pub fn generated_line(
    alloc: Global,
    pictures: u32,
    counts: Counts,
    sum: u64,
) -> Result<String, NoMemory>
    ensures { IfOk result (λ text. string_bytes text ≡ generated pictures counts sum) }
{
    let digits = sixteen_digits(alloc, sum)?;
    let Counts {
        video,
        audio,
        bytes,
    } = counts;
    match format!(in alloc;
        "gen {pictures} video {video} audio {audio} bytes {bytes} sum {digits}\n"
    ) {
        Ok(text) => Ok(text),
        Err(AllocError) => Err(NoMemory),
    }
}

/// The number in sixteen lower-case hexadecimal digits.
fn sixteen_digits(alloc: Global, number: u64) -> Result<String, AllocError>
    ensures { IfOk result (λ text. string_bytes text ≡ sixteen_digits number) }
{
    match format!(in alloc; "{number:016x}") {
        Ok(text) => Ok(text),
        Err(error) => Err(error),
    }
}
