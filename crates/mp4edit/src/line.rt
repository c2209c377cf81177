// The line that is said of a file that was written.
ghost use Rattle.std.specs.Prelude.{◌≡◌, ◌++◌, decimal, IfOk, OnOk};
ghost use Rattle.mp4edit.specs.Line.{wrote};

use itoa::Buffer;
use std::alloc::{AllocError, Global};

/// The line that tells of a file: its name, its tracks, all their samples, and its length in bytes.
#[tactic(auto, unfolding(crate::specs::Line::wrote))]
pub fn wrote_line(
    alloc: Global,
    name: &str,
    tracks: usize,
    samples: u32,
    bytes: u64,
) -> Result<Vec<u8>, AllocError>
    ensures { IfOk result (λ line. line.items ≡ wrote name.now tracks samples bytes) }
{
    let mut line = Vec::from_slice(alloc, b"wrote ")?;
    line.extend_from_slice(name.as_bytes())?;
    line.extend_from_slice(b" tracks ")?;
    put_number(&mut line, tracks as u64)?;
    line.extend_from_slice(b" samples ")?;
    put_number(&mut line, u64::from(samples))?;
    line.extend_from_slice(b" bytes ")?;
    put_number(&mut line, bytes)?;
    line.extend_from_slice(b"\n")?;
    Ok(line)
}

fn put_number(line: &mut Vec<u8>, n: u64) -> Result<(), AllocError>
    ensures { OnOk result (line.new.items ≡ line.old.items ++ decimal n) }
{
    line.extend_from_slice(Buffer::new().format(n).as_bytes())
}
