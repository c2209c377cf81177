//! Files that are appended to a folder of two files, whole or to where a call fails.
ghost use Rattle.std.specs.Prelude.{◌≡◌, ◌≤◌, All, IfOk, None, length};
ghost use Rattle.std.specs.List.{AllByRecursion};
ghost use Rattle.mp_pieces.specs.Copied.{sizes_of};
ghost use Rattle.mp_pieces.specs.Piece.{IsHeld};
ghost use Rattle.mp_movie.specs.StandsFor.{HoldTrack};

use super::*;
use crate::emit;
use mp_pieces::EmitFail;
use mp_ports::{Folder, MemFile, MemFolder};
use std::test::Fail;

// Two files, opened, in a folder whose call of this number fails.
fn folder_of(alloc: Global, failing: u64) -> Result<MemFolder, AllocError>
    ensures opened { IfOk result (λ folder. length folder.folder.opened ≡ 2) }
    ensures output { IfOk result (λ folder. folder.folder.output ≡ None) }
{
    let mut files = Vec::new(alloc);
    files.push(MemFile {
        name: String::from_str(alloc, "a")?,
        bytes: Vec::from_slice(alloc, b"\xaa\xbb\xcc\xdd\xee")?,
    })?;
    files.push(MemFile {
        name: String::from_str(alloc, "b")?,
        bytes: Vec::from_slice(alloc, b"\x01\x02")?,
    })?;
    let mut folder = MemFolder::new(alloc, files, Vec::from_slice(alloc, &[failing])?);
    folder.open("a").map_err(|_| AllocError)?;
    folder.open("b").map_err(|_| AllocError)?;
    Ok(folder)
}

// Each piece lies in one of so many opened files.
fn check_held<F: Folder>(rt: &impl Abort, folder: &F, files: u32, pieces: &[Piece])
    requires { files ≤ length (F.state folder.now).opened }
    ensures { All (IsHeld (sizes_of (F.state folder.now))) pieces.now }
{
    for &piece in pieces {
        assert!(rt; piece.file < files);
        let size = folder.size(piece.file);
        assert!(rt; u64::from(piece.len) <= size);
        assert!(rt; piece.from <= size - u64::from(piece.len));
    }
}

// The pieces of each track lie in the opened files.
fn check_tracks<F: Folder>(rt: &impl Abort, folder: &F, files: u32, tracks: &[Track])
    requires { files ≤ length (F.state folder.now).opened }
    ensures { AllByRecursion (HoldTrack (sizes_of (F.state folder.now))) tracks.now }
{
    for track in tracks {
        check_held(rt, folder, files, &track.pieces);
    }
}

// What stands of the movie's file, its samples in windows of so many milliseconds, copied through one of so many
// bytes, where the folder's call of this number fails; and the length in the plan.
fn written_of(
    rt: &impl Abort,
    alloc: Global,
    movie: &Movie,
    millis: u32,
    room: usize,
    failing: u64,
) -> Result<(MemFolder, Result<(), EmitFail>, u64), AllocError> {
    let plan = plan_of(alloc, movie, millis)?;
    let mut folder = folder_of(alloc, failing)?;
    check_tracks(rt, &folder, 2, movie.tracks());
    let name = String::from_str(alloc, "b.mp4")?;
    let Ok(()) = folder.create(name) else {
        return Err(AllocError);
    };
    let mut window = Vec::new(alloc);
    window.resize(room, 0)?;
    assert!(rt; !window.is_empty());
    let result = emit(&plan, movie, &mut folder, &mut window);
    Ok((folder, result, plan.length))
}

// The file of the movie is these pieces, one after another, and so long, whatever the window.
pub fn check_file(
    rt: &impl Abort,
    alloc: Global,
    movie: &Movie,
    pieces: &[&[u8]],
    len: u64,
) -> Result<(), AllocError> {
    for room in [1, 2, 3, 7, 65_536] {
        let (folder, result, planned) = written_of(rt, alloc, movie, 0, room, 0)?;
        assert!(rt; result.is_ok());
        assert_eq!(rt; planned, len);
        let mut rest = folder.written();
        for (at, piece) in pieces.iter().enumerate() {
            let after = rest.strip_prefix(*piece);
            assert!(rt; after.is_some(), "piece {at}");
            rest = after.unwrap_or(b"");
        }
        assert_eq!(rt; rest.len(), 0);
    }
    Ok(())
}

// Where one call of the folder behind `create` fails, a front of the file stands, and the fault is named; where
// none does, the whole file.
pub fn check_faults(
    rt: &impl Abort,
    alloc: Global,
    movie: &Movie,
    room: usize,
) -> Result<(), AllocError> {
    let (whole, result, _) = written_of(rt, alloc, movie, 0, room, 0)?;
    assert!(rt; result.is_ok());
    let mut reads: u64 = 0;
    let mut writes: u64 = 0;
    for call in 4..64 {
        let (folder, result, _) = written_of(rt, alloc, movie, 0, room, call)?;
        let written = folder.written();
        assert!(rt; whole.written().starts_with(written), "call {call}");
        match result {
            Ok(()) => assert_eq!(rt; written.len(), whole.written().len()),
            Err(EmitFail::ReadFault) => reads = reads.wrapping_add(1),
            Err(EmitFail::WriteFault) => writes = writes.wrapping_add(1),
        }
        assert!(rt;
            result.is_ok() || written.len() < whole.written().len(),
            "call {call}"
        );
    }
    assert!(rt; reads > 0);
    assert!(rt; writes > 0);
    Ok(())
}

// Four samples of a byte each and two, in turn in windows of half a second.
fn in_turn(rt: &impl Abort, alloc: Global) -> Result<Movie, AllocError> {
    let one = bare(alloc, *b"soun", 1)?;
    let one = with_sample(rt, one, 11_025, 0, true, &[piece(0, 0, 1)])?;
    let one = with_sample(rt, one, 11_025, 0, true, &[piece(0, 1, 1)])?;
    let one = with_sample(rt, one, 11_025, 0, true, &[piece(0, 2, 1)])?;
    let one = with_sample(rt, one, 11_025, 0, true, &[piece(0, 3, 1)])?;
    let other = bare(alloc, *b"soun", 2)?;
    let other = with_sample(rt, other, 22_050, 0, true, &[piece(1, 0, 1)])?;
    let other = with_sample(rt, other, 22_050, 0, true, &[piece(1, 1, 1)])?;
    movie_of_two(alloc, one, other)
}

#[test]
fn samples_in_turn(rt: HostRuntime) -> Result<(), Fail> {
    let rows: [(u32, &[u8]); 2] = [
        (500, b"\x00\x00\x00\x0emdat\xaa\xbb\x01\xcc\xdd\x02"),
        (0, b"\x00\x00\x00\x0emdat\xaa\xbb\xcc\xdd\x01\x02"),
    ];
    let alloc = rt.alloc();
    let movie = in_turn(&rt, alloc)?;
    for (millis, payload) in rows {
        for room in [1, 65_536] {
            let (folder, result, _) = written_of(&rt, alloc, &movie, millis, room, 0)?;
            assert!(rt; result.is_ok());
            assert!(rt; folder.written().ends_with(payload));
        }
    }
    Ok(())
}
