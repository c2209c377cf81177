//! Files that are far longer than what is read of them, of a folder that tells none of their bytes.

use super::first_bytes::FILE as SOUND;
use crate::read_movie;
use mp_ports::{Bad, Code, Folder, OpenFail, PortFault, ReadFail};
use std::alloc::{AllocError, Global};
use std::process::Abort;
use std::test;

/// One file: these bytes, and zeros behind them. It counts its reads.
#[derive(Drop)]
struct Front {
    bytes: Vec<u8>,
    size: u64,
    reads: u64,
    output: Option<String>,
    finished: bool,
}

impl Folder for Front {
    ghost use Rattle.std.specs.Prelude.{[], ◌∷◌, None, option_map, string_bytes};

    ghost state = { λ s. record {
      held = None;
      opened = record { name = []; size = s.size; bytes = None } ∷ [];
      output = option_map (λ name. record { name = string_bytes name; finished = s.finished }) s.output;
      written = None;
      read_faults = 0;
      write_faults = 0;
      misses = 0;
    } };

    fn open(&mut self, _name: &str) -> Result<u32, OpenFail> {
        Err(OpenFail::NoMemory)
    }

    fn size(&self, _file: u32) -> u64 {
        self.size
    }

    fn read_at(&mut self, _file: u32, from: u64, into: &mut [u8]) -> Result<(), PortFault> {
        self.reads = self.reads.wrapping_add(1);
        into.fill(0);
        let from = from.min(self.bytes.len() as u64) as usize;
        let len = into.len().min(self.bytes.len() - from);
        into[..len].copy_from_slice(&self.bytes[from..from + len]);
        Ok(())
    }

    fn create(&mut self, name: String) -> Result<(), PortFault> {
        self.output = Some(name);
        self.finished = false;
        Ok(())
    }

    fn append(&mut self, _piece: &[u8]) -> Result<(), PortFault> {
        Ok(())
    }

    fn finish(&mut self) -> Result<(), PortFault> {
        self.finished = true;
        Ok(())
    }
}

/// The file of sound, a box in front of the zeros, and so many bytes in all.
fn file_of(alloc: Global, head: &[u8], size: u64) -> Result<Front, AllocError> {
    let mut bytes = Vec::from_slice(alloc, &SOUND)?;
    bytes.extend_from_slice(head)?;
    Ok(Front {
        bytes,
        size,
        reads: 0,
        output: None,
        finished: false,
    })
}

// The file has one track of one sample, and so many reads show it.
fn check(rt: &impl Abort, alloc: Global, folder: &mut Front, reads: u64) {
    let Ok(movie) = read_movie(alloc, folder, 0) else {
        panic!(rt; "a refusal");
    };
    assert_eq!(rt;
        (movie.tracks().len(), movie.samples(), movie.payload()),
        (1, 1, 2)
    );
    assert_eq!(rt; folder.reads, reads);
}

/// The box `free` of 2^50 - 578 bytes has a 64-bit size.
#[test]
fn file_of_a_million_gigabytes_is_read(rt: HostRuntime) -> Result<(), test::Fail> {
    let head = b"\0\0\0\x01free\0\x03\xFF\xFF\xFF\xFF\xFD\xBE";
    let mut folder = file_of(rt.alloc(), head, 1 << 50)?;
    check(&rt, rt.alloc(), &mut folder, 2);
    Ok(())
}

#[test]
fn free_box_of_64_megabytes_is_skipped(rt: HostRuntime) -> Result<(), test::Fail> {
    let mut folder = file_of(rt.alloc(), b"\x04\0\0\0free", 67_109_442)?;
    check(&rt, rt.alloc(), &mut folder, 2);
    Ok(())
}

/// Its head is all that is read of it.
#[test]
fn long_movie_box_is_refused(rt: HostRuntime) -> Result<(), test::Fail> {
    let mut folder = Front {
        bytes: Vec::from_slice(rt.alloc(), b"\x10\0\0\x01moov")?,
        size: 268_435_457,
        reads: 0,
        output: None,
        finished: false,
    };
    let answer = read_movie(rt.alloc(), &mut folder, 0);
    let wanted = Bad::at(Code::MoovLimit, 0);
    assert!(&rt; matches!(answer, Err(ReadFail::Bad(bad)) if bad == wanted));
    assert_eq!(&rt; folder.reads, 1);
    Ok(())
}
