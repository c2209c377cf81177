//! The frames of an opened file, one after another, through a window.

ghost use Rattle.std.specs.Prelude.{◌≡◌, ◌<◌, length, min, Err, IfOk, IfErr, IfSome};
ghost use Rattle.mp_ports.specs.Checks.{Checks};
ghost use Rattle.mp_ports.specs.Folder.{opened_at};
ghost use Rattle.mp_ports.specs.Gives.{Gives, read_refusal};
ghost use Rattle.mp_ports.specs.Reading.{OnlyReads};
ghost use Rattle.adts_import.specs.Frame.{IsConfiguration, IsHeader, configuration as configuration_of, header_of, most_frames};
ghost use Rattle.adts_import.specs.Places.{ArePayloads};
ghost use Rattle.adts_import.specs.Window.{IsWindow};
ghost use Rattle.adts_import.specs.Stream.{IsStreamRefusal, frames_of, next_fault, stream_pieces};

use crate::header::{Configuration, Header, read_header};
use mp_columns::MOST_ITEMS;
use mp_pieces::{Piece, Window};
use mp_ports::{Bad, Code, Folder, ReadFail};
use std::alloc::Global;

/// How many bytes of a frame are read: its header without the check word.
const FRONT: u64 = 7;

/// The lesser of what is left and what is read of a frame.
fn front_len(left: u64) -> usize
    ensures { result ≡ min left 7 }
{
    if left < FRONT {
        left as usize
    } else {
        FRONT as usize
    }
}

/// The configuration of an opened file's first frame, which is tested.
pub(crate) fn read_configuration<F: Folder>(
    folder: &mut F,
    file: u32,
    window: &mut Window,
) -> Result<Configuration, ReadFail>
    requires { IsWindow (F.state folder.old) file window.old }
    ensures first { IfOk result (λ first. IfSome (opened_at (F.state folder.old) file).bytes
        (λ bytes. first ≡ configuration_of bytes)) }
    ensures fault { IfErr result (λ fail. IfSome (opened_at (F.state folder.old) file).bytes
        (λ bytes. IfSome (read_refusal fail) (λ bad. frames_of bytes ≡ Err bad))) }
    ensures bounds { IfOk result IsConfiguration }
    ensures some { IfOk result (λ _. 0 < (opened_at (F.state folder.old) file).size) }
    ensures refusal { IfErr result (λ fail. IfSome (read_refusal fail) IsStreamRefusal) }
    ensures window { IfOk result (λ _. IsWindow (F.state folder.new) file window.new) }
    ensures folder { OnlyReads result (F.state folder.old) (F.state folder.new) }
{
    let size = folder.size(file);
    if size == 0 {
        return Err(ReadFail::Bad(Bad::at(Code::AdtsEmpty, 0)));
    }
    let count = front_len(size);
    window.fill(folder, 0, count)?;
    let front = window.held(0, count);
    match read_header(front, size) {
        Ok(first) => Ok(first.configuration),
        Err(code) => Err(ReadFail::Bad(Bad::at(code, 0))),
    }
}

/// Where the payloads of an opened file's frames stand, each frame of this configuration. Payloads aren't
/// looked at.
pub(crate) fn read_places<F: Folder>(
    alloc: Global,
    folder: &mut F,
    file: u32,
    window: Window,
    stream: Configuration,
) -> Result<Vec<Piece>, ReadFail>
    requires window { IsWindow (F.state folder.old) file window }
    requires first { IfSome (opened_at (F.state folder.old) file).bytes
        (λ bytes. stream ≡ configuration_of bytes) }
    requires some { 0 < (opened_at (F.state folder.old) file).size }
    ensures places { IfSome (opened_at (F.state folder.old) file).bytes
        (λ bytes. Gives read_refusal (λ places. places.items) result (stream_pieces file bytes)) }
    ensures payloads { IfOk result
        (λ places. ArePayloads file (opened_at (F.state folder.old) file).size places.items) }
    ensures refusal { IfErr result (λ fail. IfSome (read_refusal fail) IsStreamRefusal) }
    ensures folder { OnlyReads result (F.state folder.old) (F.state folder.new) }
{
    let size = folder.size(file);
    let mut window = window;
    let mut places = Vec::new(alloc);
    let mut at = 0;
    while at < size {
        let count = front_len(size - at);
        window.fill(folder, at, count)?;
        let front = window.held(at, count);
        let head = next_frame(front, size - at, at, places.len(), stream)?;
        places.push(Piece {
            file,
            from: at + u64::from(head.header_len),
            len: head.frame_len - head.header_len,
            prefix: None,
        })?;
        at += u64::from(head.frame_len);
    }
    Ok(places)
}

/// The header of the frame that begins with `front`, at this place and behind `number` frames of the
/// stream, where `left` bytes are left.
#[tactic(auto, unfolding(crate::specs::Stream::next_fault))]
fn next_frame(
    front: &[u8],
    left: u64,
    place: u64,
    number: usize,
    stream: Configuration,
) -> Result<Header, Bad>
    requires { length front.now ≡ min left 7 }
    ensures fault { Checks result (next_fault stream number place front.now left) }
    ensures header { IfOk result (λ header. header ≡ header_of front.now) }
    ensures bounds { IfOk result (λ header. IsHeader header left) }
    ensures few { IfOk result (λ _. number < most_frames) }
    ensures refusal { IfErr result IsStreamRefusal }
{
    let head = match read_header(front, left) {
        Ok(head) => head,
        Err(code) => return Err(Bad::at(code, place)),
    };
    if head.configuration != stream {
        return Err(Bad::at(Code::AdtsChange, place));
    }
    if number >= MOST_ITEMS as usize {
        return Err(Bad::at(Code::SampleLimit, 0));
    }
    Ok(head)
}
