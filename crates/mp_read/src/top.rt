//! The movie box of a file, found by the heads of the boxes at its top (ISO/IEC 14496-12, 4.2 and 8.2.1).

ghost use Rattle.std.specs.Prelude.{◌≡◌, ◌<◌, ◌≤◌, ℕ, List, IfErr, IfOk, IfSome, OnOk, Ok, Some, true, codes, drop, length};
ghost use Rattle.mp_ports.specs.Checks.{Checks, placed};
ghost use Rattle.mp_ports.specs.Gives.{Gives, read_refusal};
ghost use Rattle.mp_ports.specs.Folder.{opened_at};
ghost use Rattle.mp_ports.specs.Reading.{OnlyReads};
ghost use Rattle.mp_pieces.specs.Window.{IsOf};
ghost use Rattle.mp_boxes.specs.Boxes.{Box};
ghost use Rattle.mp_boxes.specs.Child.{of_kind, one_of};
ghost use Rattle.mp_boxes.specs.Head.{head_at};
ghost use Rattle.mp_movie.specs.Children.{has_none};
ghost use Rattle.mp_movie.specs.Present.{top_boxes};
ghost use Rattle.mp_read.specs.Read.{IsFileRefusal, is_file_code};
ghost use Rattle.mp_read.specs.Top.{AreSeen, FindsMoov, IsInFile, IsSameWindow, box_at, none_seen, seen_with};

use mp_boxes::{TopHead, head_of, heads_are_read};
use mp_pieces::Window;
use mp_ports::{Bad, Code, Folder, NoMemory, ReadFail};
use std::alloc::Global;

/// The longest header of a box in bytes (4.2).
const MOST_HEADER: u64 = 24;

/// How many bytes of a file are read at once.
const WINDOW: usize = 65_536;

/// A box at the top of a file.
#[derive(Clone, Copy)]
pub(crate) struct FileBox {
    /// The place of its first byte.
    pub(crate) place: u64,
    pub(crate) head: TopHead,
}

/// The first two boxes of a type among those that were passed.
#[derive(Clone, Copy)]
struct Seen {
    kind: [u8; 4],
    first: Option<FileBox>,
    second: Option<FileBox>,
}

impl Seen {
    /// No box was passed.
    fn none(kind: [u8; 4]) -> Self
        ensures { result ≡ none_seen kind }
    {
        Seen {
            kind,
            first: None,
            second: None,
        }
    }

    /// This box was passed behind the others.
    fn with(self, found: FileBox) -> Self
        ensures { result ≡ seen_with self found }
    {
        let kind = self.kind;
        if found.head.kind != kind {
            return self;
        }
        match (self.first, self.second) {
            (None, _) => Seen {
                kind,
                first: Some(found),
                second: None,
            },
            (first, None) => Seen {
                kind,
                first,
                second: Some(found),
            },
            _ => self,
        }
    }

    /// Whether none was seen; the code at the first.
    fn check_none(self, code: Code) -> Result<(), Bad>
        ensures none { (file kind : List ℕ) (boxes : List Box) → AreSeen file kind boxes self
            → Checks result (has_none code kind boxes) }
        ensures refusal { is_file_code code ≡ true → IfErr result IsFileRefusal }
    {
        match self.first {
            Some(found) => Err(Bad::at(code, found.place)),
            None => Ok(()),
        }
    }

    /// The one that was seen: `BoxMissing` at the end of the file, `BoxTwice` at the second.
    fn one(self, size: u64) -> Result<FileBox, Bad>
        ensures one { (file kind : List ℕ) (boxes : List Box) → AreSeen file kind boxes self
            → Gives Some (box_at file) result (one_of size (of_kind kind boxes)) }
        ensures first { IfOk result (λ found. self.first ≡ Some found) }
        ensures refusal { IfErr result IsFileRefusal }
    {
        match (self.first, self.second) {
            (None, _) => Err(Bad::at(Code::BoxMissing, size)),
            (Some(_), Some(second)) => Err(Bad::at(Code::BoxTwice, second.place)),
            (Some(found), None) => Ok(found),
        }
    }
}

/// So many zeros.
pub(crate) fn zeros(alloc: Global, count: usize) -> Result<Vec<u8>, NoMemory>
    ensures { IfOk result (λ bytes. length bytes.items ≡ count) }
{
    Ok(vec![in alloc; 0u8; count]?)
}

/// The head of the box at the place `at` of the window's file, which has so many bytes: `BoxCut` and `BoxSize`
/// there.
fn next_head<F: Folder>(
    folder: &mut F,
    window: &mut Window,
    size: u64,
    at: u64,
) -> Result<TopHead, ReadFail>
    requires window { IsOf (F.state folder.old) window.old }
    requires room { MOST_HEADER ≤ window.old.room }
    requires size { window.old.size ≡ size }
    requires told { IfSome (opened_at (F.state folder.old) window.old.file).bytes (λ bytes. size ≡ length bytes) }
    requires inside { at < size }
    ensures head { IfSome (opened_at (F.state folder.old) window.old.file).bytes
        (λ bytes. Gives read_refusal (λ head. head) result (placed at (head_at true (drop at bytes)))) }
    ensures inside { IfOk result (λ head. IsInFile size (record { place = at; head = head })) }
    ensures refusal { IfErr result (λ fail. IfSome (read_refusal fail) IsFileRefusal) }
    ensures window { OnOk result (IsSameWindow (F.state folder.new) window.old window.new) }
    ensures folder { OnlyReads result (F.state folder.old) (F.state folder.new) }
{
    let left = size - at;
    let count = left.min(MOST_HEADER) as usize;
    let Ok(()) = window.fill(folder, at, count) else {
        return Err(ReadFail::ReadFault);
    };
    heads_are_read();
    match head_of(window.held(at, count), left, true) {
        Ok(head) => Ok(head),
        Err(code) => Err(ReadFail::Bad(Bad::at(code, at))),
    }
}

/// The one movie box among the boxes of a file, of which these were seen, unless another check in front of
/// its own fails.
fn moov_of(fragment: Seen, compressed: Seen, moov: Seen, size: u64) -> Result<FileBox, Bad>
    ensures found { (file : List ℕ) (boxes : List Box) → size ≡ length file → top_boxes file ≡ Ok boxes
        → AreSeen file (codes "moof") boxes fragment → AreSeen file (codes "!mov") boxes compressed
        → AreSeen file (codes "moov") boxes moov → FindsMoov Some file result }
    ensures first { IfOk result (λ found. moov.first ≡ Some found) }
    ensures refusal { IfErr result IsFileRefusal }
{
    fragment.check_none(Code::Fragmented)?;
    compressed.check_none(Code::Compressed)?;
    moov.one(size)
}

/// The movie box of an opened file, by the heads of the boxes at the top.
///
/// `BoxCut` and `BoxSize` at the first such box; `Fragmented` at the first `moof`; `Compressed` at the first
/// `!mov`; `BoxMissing` at the end of the file, `BoxTwice` at the second `moov`.
pub(crate) fn find_moov<F: Folder>(
    alloc: Global,
    folder: &mut F,
    file: u32,
) -> Result<FileBox, ReadFail>
    requires { file < length (F.state folder.old).opened }
    ensures found { IfSome (opened_at (F.state folder.old) file).bytes (λ bytes. FindsMoov read_refusal bytes result) }
    ensures inside { IfOk result (IsInFile (opened_at (F.state folder.old) file).size) }
    ensures refusal { IfErr result (λ fail. IfSome (read_refusal fail) IsFileRefusal) }
    ensures folder { OnlyReads result (F.state folder.old) (F.state folder.new) }
{
    let size = folder.size(file);
    let buffer = zeros(alloc, WINDOW)?;
    let mut window = Window::new(folder, file, buffer);
    let mut fragment = Seen::none(*b"moof");
    let mut compressed = Seen::none(*b"!mov");
    let mut moov = Seen::none(*b"moov");
    let mut at = 0;
    while at < size {
        let head = match next_head(folder, &mut window, size, at) {
            Ok(head) => head,
            Err(fail) => return Err(fail),
        };
        let found = FileBox { place: at, head };
        fragment = fragment.with(found);
        compressed = compressed.with(found);
        moov = moov.with(found);
        at += head.len;
    }
    match moov_of(fragment, compressed, moov, size) {
        Ok(found) => Ok(found),
        Err(bad) => Err(ReadFail::Bad(bad)),
    }
}
