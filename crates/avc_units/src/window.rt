//! Long units: the rest of a unit, read through a window.
ghost use Rattle.std.specs.Prelude.{◌≡◌, ◌+◌, ◌-◌, ◌<◌, ◌≤◌, length, drop, IfSome, IfOk, OnOk, OnErr};
ghost use Rattle.mp_ports.specs.Folder.{FolderState, opened_at, FailsToRead};
ghost use Rattle.avc_units.specs.Scan.{Holds, HasPassed, unit_len};

use crate::search::scan;
use mp_ports::{Folder, PortFault};

// The first read for the rest of a unit; each further one takes twice as many bytes, up to 1 MiB.
const FIRST_READ: usize = 4096;

const LONGEST_READ: usize = 1_048_576;

// An opened file and its size.
#[derive(Clone, Copy)]
pub(crate) struct Source {
    pub(crate) file: u32,
    pub(crate) size: u64,
}

// Fills the front of the window with what stands at `from`, at most `most` bytes.
pub(crate) fn fill<F: Folder>(
    folder: &mut F,
    source: Source,
    from: u64,
    most: usize,
    window: &mut [u8],
) -> Result<usize, PortFault>
    requires file { source.file < length (F.state folder.old).opened }
    requires size { source.size ≡ (opened_at (F.state folder.old) source.file).size }
    requires inside { from < source.size }
    requires most { 0 < most }
    requires window { 0 < length window.old }
    ensures some { IfOk result (λ n. (0 < n) × (from + n ≤ source.size) × (n ≤ length window.old)) }
    ensures holds { IfOk result (λ n. Holds (opened_at (F.state folder.old) source.file).bytes from n window.new) }
    ensures same { OnOk result (F.state folder.new ≡ F.state folder.old) }
    ensures failed { OnErr result (FailsToRead (F.state folder.old) (F.state folder.new)) }
{
    let rest = source.size - from;
    let mut n = window.len();
    if most < n {
        n = most;
    }
    if rest < n as u64 {
        n = rest as usize;
    }
    match folder.read_at(source.file, from, &mut window[..n]) {
        Ok(()) => Ok(n),
        Err(fault) => Err(fault),
    }
}

// Where the unit ends that begins at `from`, of which the bytes up to `passed` are passed, the last of them `zeros`
// zeros.
pub(crate) fn end_behind<F: Folder>(
    folder: &mut F,
    source: Source,
    from: u64,
    passed: u64,
    zeros: usize,
    window: &mut [u8],
) -> Result<u64, PortFault>
    requires file { source.file < length (F.state folder.old).opened }
    requires size { source.size ≡ (opened_at (F.state folder.old) source.file).size }
    requires told { IfSome (opened_at (F.state folder.old) source.file).bytes (λ b. source.size ≡ length b) }
    requires low { from ≤ passed }
    requires high { passed ≤ source.size }
    requires few { zeros ≤ 2 }
    requires seen { zeros ≤ passed - from }
    requires window { 0 < length window.old }
    requires passed { HasPassed (opened_at (F.state folder.old) source.file).bytes from (passed - from) zeros }
    ensures inside { IfOk result (λ end. (from ≤ end) × (end ≤ source.size)) }
    ensures end { IfOk result
        (λ end. IfSome (opened_at (F.state folder.old) source.file).bytes (λ b. end ≡ from + unit_len (drop from b))) }
    ensures same { OnOk result (F.state folder.new ≡ F.state folder.old) }
    ensures failed { OnErr result (FailsToRead (F.state folder.old) (F.state folder.new)) }
{
    let mut at = passed;
    let mut seen = zeros;
    let mut most = FIRST_READ;
    while at < source.size {
        let n = match fill(folder, source, at, most, window) {
            Ok(n) => n,
            Err(fault) => return Err(fault),
        };
        let stand = scan(seen, &window[..n]);
        if stand.ended {
            return Ok(at + stand.used as u64 - 2);
        }
        seen = stand.zeros;
        at += n as u64;
        most = grown(most);
    }
    Ok(at - seen as u64)
}

// Twice as many bytes for the next read.
fn grown(most: usize) -> usize
    ensures { most ≤ result }
{
    if most < LONGEST_READ { most * 2 } else { most }
}
