//! The piece of a file that was read last: units that stand in it are found with no further read.
ghost use Rattle.std.specs.Prelude.{◌≡◌, ◌+◌, ◌-◌, ◌^◌, ◌<◌, ◌≤◌, length, drop, Some, Ok, IfSome, IfOk, OnOk, OnErr};
ghost use Rattle.mp_ports.specs.Folder.{FolderState, OpenedFile, opened_at, FailsToRead};
ghost use Rattle.avc_units.specs.Reader.{LiesBehind};
ghost use Rattle.avc_units.specs.Scan.{Keeps, IsFirst, IsKept, Gives, unit_len};

use crate::reader::UnitSpan;
use crate::search::{scan, unit_in, zeros_in};
use crate::window::{Source, end_behind, fill};
use mp_ports::{Folder, PortFault};

// The length of a piece, in bytes.
const PIECE_LEN: usize = 16_384;

// The first `len` bytes are those of the file from that place on.
#[derive(Drop)]
pub(crate) struct Piece {
    place: u64,
    len: usize,
    bytes: [u8; PIECE_LEN],
}

// A byte that isn't 0, and its place in the file.
#[derive(Clone, Copy)]
pub(crate) struct First {
    pub(crate) byte: u8,
    pub(crate) place: u64,
}

impl Piece {
    // Nothing was read.
    pub(crate) fn new() -> Piece
        ensures { (file : OpenedFile) → Keeps file result }
    {
        Piece {
            place: 0,
            len: 0,
            bytes: [0; PIECE_LEN],
        }
    }

    // The index of the byte at that place, which is read unless it was.
    fn reach<F: Folder>(
        &mut self,
        folder: &mut F,
        source: Source,
        place: u64,
    ) -> Result<usize, PortFault>
        requires file { source.file < length (F.state folder.old).opened }
        requires size { source.size ≡ (opened_at (F.state folder.old) source.file).size }
        requires inside { place < source.size }
        requires kept { Keeps (opened_at (F.state folder.old) source.file) self.old }
        ensures index { IfOk result (λ i. (i < self.new.len) × (self.new.place + i ≡ place)) }
        ensures kept { Keeps (opened_at (F.state folder.old) source.file) self.new }
        ensures same { OnOk result (F.state folder.new ≡ F.state folder.old) }
        ensures failed { OnErr result (FailsToRead (F.state folder.old) (F.state folder.new)) }
    {
        if self.place <= place && place - self.place < self.len as u64 {
            return Ok((place - self.place) as usize);
        }
        self.len = 0;
        match fill(folder, source, place, PIECE_LEN, &mut self.bytes) {
            Ok(n) => {
                self.place = place;
                self.len = n;
                Ok(0)
            }
            Err(fault) => Err(fault),
        }
    }

    // The unit behind that place, where it and what ends it were read.
    pub(crate) fn unit_behind(&self, end: u64) -> Option<UnitSpan>
        requires few { self.now.len ≤ 16384 }
        requires within { self.now.place + self.now.len < 2 ^ 64 }
        ensures behind { (file : OpenedFile) → Keeps file self.now
            → IfSome result (λ span. LiesBehind end file.size span) }
        ensures gives { (file : OpenedFile) → Keeps file self.now
            → IfSome result (λ span. IfSome file.bytes (λ b. Gives b end (Ok (Some span)))) }
    {
        if end < self.place || self.len as u64 <= end - self.place {
            return None;
        }
        let start = (end - self.place) as usize;
        match unit_in(&self.bytes[start..self.len]) {
            Some(unit) => Some(UnitSpan {
                from: end + unit.from as u64,
                len: unit.len as u32,
            }),
            None => None,
        }
    }

    // The first byte from that place on that isn't 0; it is kept then.
    pub(crate) fn first_byte<F: Folder>(
        &mut self,
        folder: &mut F,
        source: Source,
        from: u64,
    ) -> Result<Option<First>, PortFault>
        requires file { source.file < length (F.state folder.old).opened }
        requires size { source.size ≡ (opened_at (F.state folder.old) source.file).size }
        requires told { IfSome (opened_at (F.state folder.old) source.file).bytes (λ b. source.size ≡ length b) }
        requires from { from ≤ source.size }
        requires kept { Keeps (opened_at (F.state folder.old) source.file) self.old }
        ensures inside { IfOk result (λ found. IfSome found (λ first. IsKept from self.new first)) }
        ensures first { IfOk result
            (λ found. IfSome (opened_at (F.state folder.old) source.file).bytes (λ b. IsFirst b from found)) }
        ensures kept { Keeps (opened_at (F.state folder.old) source.file) self.new }
        ensures same { OnOk result (F.state folder.new ≡ F.state folder.old) }
        ensures failed { OnErr result (FailsToRead (F.state folder.old) (F.state folder.new)) }
    {
        let mut at = from;
        while at < source.size {
            let start = match self.reach(folder, source, at) {
                Ok(start) => start,
                Err(fault) => return Err(fault),
            };
            let zeros = zeros_in(&self.bytes[start..self.len]);
            if zeros < self.len - start {
                return Ok(Some(First {
                    byte: self.bytes[start + zeros],
                    place: at + zeros as u64,
                }));
            }
            at += (self.len - start) as u64;
        }
        Ok(None)
    }

    // Where the unit ends that begins at `from`, behind a byte that is kept.
    pub(crate) fn end_of<F: Folder>(
        &self,
        folder: &mut F,
        source: Source,
        from: u64,
        window: &mut [u8],
    ) -> Result<u64, PortFault>
        requires file { source.file < length (F.state folder.old).opened }
        requires size { source.size ≡ (opened_at (F.state folder.old) source.file).size }
        requires told { IfSome (opened_at (F.state folder.old) source.file).bytes (λ b. source.size ≡ length b) }
        requires low { self.now.place ≤ from }
        requires high { from ≤ self.now.place + self.now.len }
        requires kept { Keeps (opened_at (F.state folder.old) source.file) self.now }
        requires window { 0 < length window.old }
        ensures inside { IfOk result (λ end. (from ≤ end) × (end ≤ source.size)) }
        ensures end { IfOk result (λ end. IfSome (opened_at (F.state folder.old) source.file).bytes
            (λ b. end ≡ from + unit_len (drop from b))) }
        ensures same { OnOk result (F.state folder.new ≡ F.state folder.old) }
        ensures failed { OnErr result (FailsToRead (F.state folder.old) (F.state folder.new)) }
    {
        let start = (from - self.place) as usize;
        let stand = scan(0, &self.bytes[start..self.len]);
        if stand.ended {
            return Ok(from + stand.used as u64 - 2);
        }
        end_behind(
            folder,
            source,
            from,
            from + stand.used as u64,
            stand.zeros,
            window,
        )
    }
}
