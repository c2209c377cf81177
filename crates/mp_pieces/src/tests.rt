//! Windows and pieces against a plain computation: windows of every kind, each call failing in turn, and how
//! often the system is called.

ghost use Rattle.std.specs.Prelude.{◌≡◌, ◌<◌, ◌≤◌, All, length, IfOk, IsTrue};
ghost use Rattle.mp_ports.specs.Folder.{IsWriting};
ghost use Rattle.mp_pieces.specs.Copied.{sizes_of};
ghost use Rattle.mp_pieces.specs.Piece.{IsHeld};
ghost use Rattle.mp_pieces.specs.Window.{IsOf};

use crate::{EmitFail, Piece, Window, copy_pieces, piece_len};
use mp_ports::{Folder, MemFile, MemFolder, OpenFail, PortFault};
use std::alloc::{AllocError, Global};
use std::test::Fail;

// A folder in memory that counts its reads, their bytes, and its appends, and says which of them failed.
#[derive(Drop)]
struct Counted {
    folder: MemFolder,
    reads: u64,
    read: u64,
    appends: u64,
    unread: bool,
    unwritten: bool,
}

impl Folder for Counted {
    ghost state = { λ s. s.folder.folder };

    fn open(&mut self, name: &str) -> Result<u32, OpenFail> {
        self.folder.open(name)
    }

    fn size(&self, file: u32) -> u64 {
        self.folder.size(file)
    }

    fn read_at(&mut self, file: u32, from: u64, into: &mut [u8]) -> Result<(), PortFault> {
        self.reads = self.reads.wrapping_add(1);
        self.read = self.read.wrapping_add(into.len() as u64);
        let answer = self.folder.read_at(file, from, into);
        self.unread = answer.is_err();
        answer
    }

    fn create(&mut self, name: String) -> Result<(), PortFault> {
        self.folder.create(name)
    }

    fn append(&mut self, piece: &[u8]) -> Result<(), PortFault> {
        self.appends = self.appends.wrapping_add(1);
        let answer = self.folder.append(piece);
        self.unwritten = answer.is_err();
        answer
    }

    fn finish(&mut self) -> Result<(), PortFault> {
        self.folder.finish()
    }
}

// Two opened files, and an output; these calls behind that fail, counted from 1.
fn folder_of(
    alloc: Global,
    first: &[u8],
    second: &[u8],
    failing: Option<u64>,
) -> Result<Counted, OpenFail>
    ensures opened { IfOk result (λ f. length f.folder.folder.opened ≡ 2) }
    ensures writing { IfOk result (λ f. IsWriting f.folder.folder) }
{
    let mut files = Vec::new(alloc);
    let mut calls = Vec::new(alloc);
    let (Ok(a), Ok(b)) = (String::from_str(alloc, "a"), String::from_str(alloc, "b")) else {
        return Err(OpenFail::NoMemory);
    };
    let (Ok(first), Ok(second)) = (first.to_vec(alloc), second.to_vec(alloc)) else {
        return Err(OpenFail::NoMemory);
    };
    if files
        .push(MemFile {
            name: a,
            bytes: first,
        })
        .is_err()
    {
        return Err(OpenFail::NoMemory);
    }
    if files
        .push(MemFile {
            name: b,
            bytes: second,
        })
        .is_err()
    {
        return Err(OpenFail::NoMemory);
    }
    if let Some(call) = failing {
        if calls.push(call.saturating_add(3)).is_err() {
            return Err(OpenFail::NoMemory);
        }
    }
    let mut folder = MemFolder::new(alloc, files, calls);
    folder.open("a")?;
    folder.open("b")?;
    let Ok(name) = String::from_str(alloc, "out") else {
        return Err(OpenFail::NoMemory);
    };
    if folder.create(name).is_err() || folder.reserve(2_000_000).is_err() {
        return Err(OpenFail::Failed);
    }
    Ok(Counted {
        folder,
        reads: 0,
        read: 0,
        appends: 0,
        unread: false,
        unwritten: false,
    })
}

// Whether the piece lies in one of the two files.
fn is_held(folder: &Counted, piece: Piece) -> bool
    requires { length folder.now.folder.folder.opened ≡ 2 }
    ensures { IsTrue result → IsHeld (sizes_of folder.now.folder.folder) piece }
{
    if piece.file >= 2 {
        return false;
    }
    let len = u64::from(piece.len);
    let size = folder.size(piece.file);
    size >= len && size - len >= piece.from
}

// Whether all of them do.
fn are_held(folder: &Counted, pieces: &[Piece]) -> bool
    requires { length folder.now.folder.folder.opened ≡ 2 }
    ensures { IsTrue result → All (IsHeld (sizes_of folder.now.folder.folder)) pieces.now }
{
    for piece in pieces {
        if !is_held(folder, *piece) {
            return false;
        }
    }
    true
}

// Copies the pieces; None where they don't lie in the files.
fn copied(folder: &mut Counted, pieces: &[Piece], window: &mut [u8]) -> Option<Result<(), EmitFail>>
    requires opened { length folder.old.folder.folder.opened ≡ 2 }
    requires writing { IsWriting folder.old.folder.folder }
{
    if !are_held(folder, pieces) || window.is_empty() {
        return None;
    }
    Some(copy_pieces(folder, pieces, window))
}

// What the pieces stand for.
fn plain(alloc: Global, files: [&[u8]; 2], pieces: &[Piece]) -> Result<Vec<u8>, AllocError> {
    let mut bytes = Vec::new(alloc);
    for piece in pieces {
        if let Some(prefix) = piece.prefix {
            bytes.extend_from_slice(&prefix.to_be_bytes())?;
        }
        let file = if piece.file == 0 { files[0] } else { files[1] };
        let end = piece.from.saturating_add(u64::from(piece.len)) as usize;
        if let Some(range) = file.get(piece.from as usize..end) {
            bytes.extend_from_slice(range)?;
        }
    }
    Ok(bytes)
}

// Numbers without a pattern that a copy could keep by chance.
#[derive(Drop)]
struct Dice {
    state: u64,
}

impl Dice {
    fn below(&mut self, sides: u64) -> u64
        requires { 0 < sides }
        ensures { result < sides }
    {
        self.state = self.state.wrapping_mul(6_364_136_223_846_793_005);
        self.state = self.state.wrapping_add(1_442_695_040_888_963_407);
        (self.state >> 33) % sides
    }
}

// So many bytes of a file.
fn bytes_of(alloc: Global, dice: &mut Dice, len: usize) -> Result<Vec<u8>, AllocError> {
    let mut bytes = Vec::new(alloc);
    for _ in 0..len {
        bytes.push(dice.below(256) as u8)?;
    }
    Ok(bytes)
}

// Pieces behind one another with small gaps, now and then far away, or of the other file.
fn pieces_of(alloc: Global, dice: &mut Dice, count: usize) -> Result<Vec<Piece>, AllocError> {
    let mut pieces = Vec::new(alloc);
    let mut file = 0;
    let mut from = 0;
    for _ in 0..count {
        match dice.below(16) {
            0 => file = dice.below(2) as u32,
            1 => from = dice.below(3000),
            _ => from = from.wrapping_add(dice.below(10)),
        }
        let len = dice.below(40);
        if from.wrapping_add(len) > 3000 {
            from = 0;
        }
        let prefix = if dice.below(2) == 0 {
            Some(dice.below(1 << 32) as u32)
        } else {
            None
        };
        pieces.push(Piece {
            file,
            from,
            len: len as u32,
            prefix,
        })?;
        from = from.wrapping_add(len);
    }
    Ok(pieces)
}

const WINDOWS: [usize; 8] = [1, 2, 3, 4, 5, 16, 100, 65_536];

// Many lists of pieces, copied through windows of all kinds.
#[test]
fn pieces_are_copied(rt: HostRuntime) -> Result<(), Fail> {
    let alloc = rt.alloc();
    let mut dice = Dice { state: 1 };
    let first = bytes_of(alloc, &mut dice, 3000)?;
    let second = bytes_of(alloc, &mut dice, 3000)?;
    for round in 0..100 {
        let count = dice.below(60) as usize;
        let pieces = pieces_of(alloc, &mut dice, count)?;
        let wanted = plain(alloc, [&first, &second], &pieces)?;
        for len in WINDOWS {
            let mut window = vec![in alloc; 0u8; len]?;
            let mut folder = folder_of(alloc, &first, &second, None)?;
            let answer = copied(&mut folder, &pieces, &mut window);
            assert_eq!(rt; answer, Some(Ok(())), "round {round}, window {len}");
            assert_eq!(rt;
                folder.folder.written(),
                &wanted[..],
                "round {round}, window {len}"
            );
        }
    }
    Ok(())
}

// Each call fails in turn: a front of the bytes was written, and the fault is that of the call.
#[test]
fn calls_fail_in_turn(rt: HostRuntime) -> Result<(), Fail> {
    let alloc = rt.alloc();
    let mut dice = Dice { state: 2 };
    let first = bytes_of(alloc, &mut dice, 3000)?;
    let second = bytes_of(alloc, &mut dice, 3000)?;
    let pieces = pieces_of(alloc, &mut dice, 40)?;
    let wanted = plain(alloc, [&first, &second], &pieces)?;
    for len in WINDOWS {
        let mut window = vec![in alloc; 0u8; len]?;
        for call in 1..5000 {
            let mut folder = folder_of(alloc, &first, &second, Some(call))?;
            let answer = copied(&mut folder, &pieces, &mut window);
            if answer == Some(Ok(())) {
                assert_eq!(rt;
                    folder.reads.wrapping_add(folder.appends).wrapping_add(1),
                    call,
                    "window {len}"
                );
                break;
            }
            let fault = if folder.unread {
                EmitFail::ReadFault
            } else {
                EmitFail::WriteFault
            };
            assert_eq!(rt;
                folder.unread,
                !folder.unwritten,
                "window {len}, call {call}"
            );
            assert_eq!(rt; answer, Some(Err(fault)), "window {len}, call {call}");
            assert!(rt;
                wanted.starts_with(folder.folder.written()),
                "window {len}, call {call}"
            );
        }
    }
    Ok(())
}

// Pieces of the first file, of `len` bytes each, `gap` bytes apart, with prefixes or without.
fn run_of(
    alloc: Global,
    count: u64,
    len: u32,
    gap: u64,
    prefix: Option<u32>,
) -> Result<Vec<Piece>, AllocError> {
    let mut pieces = Vec::new(alloc);
    let mut from = gap;
    for _ in 0..count {
        let piece = Piece {
            file: 0,
            from,
            len,
            prefix,
        };
        pieces.push(piece)?;
        from = from.wrapping_add(u64::from(len)).wrapping_add(gap);
    }
    Ok(pieces)
}

// How often the system is called with a window of 65,536 bytes: frames behind headers of 7 bytes; samples of
// a chunk; units whose start code becomes a length; pieces far apart, which are read alone.
#[test]
fn system_is_called_for_windows(rt: HostRuntime) -> Result<(), Fail> {
    let alloc = rt.alloc();
    let file = vec![in alloc; 7u8; 1_200_000]?;
    let rows = [
        (2000, 280, 7, None, 9, 573_993, 9),
        (10_000, 100, 0, None, 16, 1_000_000, 16),
        (1000, 1000, 3, Some(1000), 16, 1_002_997, 16),
        (100, 10, 5000, None, 100, 1000, 1),
        (1, 1_000_000, 100, Some(5), 16, 1_000_000, 16),
        (1000, 0, 900, None, 0, 0, 0),
        (20_000, 0, 0, Some(5), 0, 0, 2),
    ];
    for (count, len, gap, prefix, reads, read, appends) in rows {
        let pieces = run_of(alloc, count, len, gap, prefix)?;
        let wanted = plain(alloc, [&file, &file], &pieces)?;
        let mut folder = folder_of(alloc, &file, &file, None)?;
        let mut window = vec![in alloc; 0u8; 65_536]?;
        let answer = copied(&mut folder, &pieces, &mut window);
        assert_eq!(rt; answer, Some(Ok(())), "{count} of {len}");
        assert_eq!(rt; folder.folder.written(), &wanted[..], "{count} of {len}");
        assert_eq!(rt;
            (folder.reads, folder.read, folder.appends),
            (reads, read, appends),
            "{count} of {len}"
        );
    }
    Ok(())
}

// Pieces of two files in turn are read one by one, and appended together.
#[test]
fn two_files_in_turn(rt: HostRuntime) -> Result<(), Fail> {
    let alloc = rt.alloc();
    let file = vec![in alloc; 7u8; 100_000]?;
    let mut pieces = run_of(alloc, 500, 100, 7, None)?;
    for (at, piece) in pieces.iter_mut().enumerate() {
        piece.file = (at % 2) as u32;
    }
    let mut folder = folder_of(alloc, &file, &file, None)?;
    let mut window = vec![in alloc; 0u8; 65_536]?;
    let answer = copied(&mut folder, &pieces, &mut window);
    assert_eq!(rt; answer, Some(Ok(())));
    assert_eq!(rt;
        (folder.reads, folder.read, folder.appends),
        (500, 50_000, 1)
    );
    Ok(())
}

// Whether the `count` bytes at that place, as they are read through the window, are the file's.
fn is_read(folder: &mut Counted, window: &mut Window, file: &[u8], at: u64, count: usize) -> bool
    requires part { IsOf folder.old.folder.folder window.old }
    requires room { count ≤ window.old.room }
    ensures part { IsTrue result → IsOf folder.new.folder.folder window.new }
    ensures room { IsTrue result → window.new.room ≡ window.old.room }
{
    if window.size() < at || window.size() - at < count as u64 {
        return false;
    }
    let Ok(()) = window.fill(folder, at, count) else {
        return false;
    };
    file.get(at as usize..)
        .is_some_and(|rest| rest.starts_with(window.held(at, count)))
}

// Whether it is so of 5 bytes at each of the places, one after another.
fn are_read(folder: &mut Counted, window: &mut Window, file: &[u8], places: u64) -> bool
    requires part { IsOf folder.old.folder.folder window.old }
    requires room { 5 ≤ window.old.room }
{
    for at in 0..places {
        if !is_read(folder, window, file, at, 5) {
            return false;
        }
    }
    true
}

fn buffer_of(alloc: Global, len: usize) -> Result<Vec<u8>, AllocError>
    ensures { IfOk result (λ buffer. length buffer.items ≡ len) }
{
    vec![in alloc; 0u8; len]
}

// A file that is read through windows of several lengths.
#[test]
fn file_is_read_through_windows(rt: HostRuntime) -> Result<(), Fail> {
    let alloc = rt.alloc();
    let mut dice = Dice { state: 3 };
    let file = bytes_of(alloc, &mut dice, 1000)?;
    for (more, reads) in [(0, 996), (1, 498), (95, 11), (995, 1), (1995, 1)] {
        let mut folder = folder_of(alloc, b"", &file, None)?;
        let mut window = Window::new(&folder, 1, buffer_of(alloc, 5 + more)?);
        assert!(rt;
            are_read(&mut folder, &mut window, &file, 996),
            "{more} more"
        );
        assert_eq!(rt; folder.reads, reads, "{more} more");
    }
    Ok(())
}

// A read that fails is answered.
#[test]
fn window_is_not_filled(rt: HostRuntime) -> Result<(), Fail> {
    let alloc = rt.alloc();
    let mut folder = folder_of(alloc, b"", b"0123456789", Some(1))?;
    let mut window = Window::new(&folder, 1, buffer_of(alloc, 5)?);
    assert_eq!(rt; window.size(), 10);
    assert!(rt; !are_read(&mut folder, &mut window, b"0123456789", 1));
    assert!(rt; folder.unread);
    Ok(())
}

#[test]
fn lengths_of_pieces(rt: HostRuntime) {
    let rows = [
        (0, None, 0),
        (0, Some(0), 4),
        (u32::MAX, None, 4_294_967_295),
        (u32::MAX, Some(7), 4_294_967_299),
    ];
    for (len, prefix, bytes) in rows {
        let piece = Piece {
            file: 0,
            from: 0,
            len,
            prefix,
        };
        assert_eq!(rt; piece_len(piece), bytes, "{len}");
    }
}
