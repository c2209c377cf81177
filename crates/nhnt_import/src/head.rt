//! The head of a table.

ghost use Rattle.std.specs.Prelude.{◌≡◌, ◌≤◌, length, min, true, Err, IfOk, IfErr, IfSome, Some, None};
ghost use Rattle.mp_ports.specs.Checks.{Checks, fault_at};
ghost use Rattle.mp_ports.specs.Folder.{opened_at};
ghost use Rattle.mp_ports.specs.Gives.{read_refusal};
ghost use Rattle.mp_ports.specs.Reading.{OnlyReads};
ghost use Rattle.nhnt_import.specs.Fault.{IsPairRefusal, is_pair_code};
ghost use Rattle.nhnt_import.specs.Head.{IsHead, head_fault, head_len, head_of};
ghost use Rattle.nhnt_import.specs.Window.{IsWindow};

use crate::number::u24_in;
use mp_boxes::{kind_in, u32_in};
use mp_pieces::Window;
use mp_ports::{Bad, Code, Folder, ReadFail};

/// How long the head is.
pub(crate) const HEAD_LEN: u64 = 24;

/// The stream type of pictures (ISO/IEC 14496-1, 7.2.6.6).
const PICTURES: u8 = 4;
/// The stream type of sound.
const SOUND: u8 = 5;
/// The object type of H.264 pictures, whose units a table doesn't tell.
const H264: u8 = 0x21;

/// What the head of a table says: whether places and times have 64 bits, sound or pictures, the object
/// type, the size of the decoder's buffer in bytes, average and greatest bits a second, ticks a second.
#[derive(Clone, Copy, Debug, PartialEq, Eq)]
pub(crate) struct Head {
    pub(crate) wide: bool,
    pub(crate) sound: bool,
    pub(crate) object: u8,
    pub(crate) buffer: u32,
    pub(crate) average: u32,
    pub(crate) maximal: u32,
    pub(crate) scale: u32,
}

/// Reads the head at the front of a table, and tests it.
///
/// `NhntHead` where the signature is another or the scale is 0, `NhntType` where the table is of neither
/// pictures nor sound, or of H.264 pictures.
#[tactic(auto, unfolding(crate::specs::Head::head_fault))]
fn head_in(front: &[u8]) -> Result<Head, Code>
    requires { head_len ≤ length front.now }
    ensures fault { Checks result (head_fault front.now) }
    ensures head { IfOk result (λ head. head ≡ head_of front.now) }
    ensures bounds { IfOk result IsHead }
    ensures code { IfErr result (λ code. is_pair_code code ≡ true) }
{
    let signature = kind_in(front, 0);
    let wide = signature == *b"NHnl";
    if signature != *b"NHnt" && !wide {
        return Err(Code::NhntHead);
    }
    let scale = u32_in(front, 20);
    if scale == 0 {
        return Err(Code::NhntHead);
    }
    let sound = front[5] == SOUND;
    if front[5] != PICTURES && !sound {
        return Err(Code::NhntType);
    }
    let object = front[6];
    if object == H264 {
        return Err(Code::NhntType);
    }
    Ok(Head {
        wide,
        sound,
        object,
        buffer: u24_in(front, 9),
        average: u32_in(front, 12),
        maximal: u32_in(front, 16),
        scale,
    })
}

/// The head of an opened table, which is tested.
pub(crate) fn read_head<F: Folder>(
    folder: &mut F,
    table: u32,
    window: &mut Window,
) -> Result<Head, ReadFail>
    requires { IsWindow (F.state folder.old) table window.old }
    ensures head { IfOk result (λ head. IfSome (opened_at (F.state folder.old) table).bytes
        (λ bytes. (head_fault bytes ≡ None) × (head ≡ head_of bytes))) }
    ensures fault { IfErr result (λ fail. IfSome (opened_at (F.state folder.old) table).bytes
        (λ bytes. IfSome (read_refusal fail) (λ bad. fault_at 0 (head_fault bytes) ≡ Some bad))) }
    ensures bounds { IfOk result IsHead }
    ensures whole { IfOk result (λ _. head_len ≤ (opened_at (F.state folder.old) table).size) }
    ensures refusal { IfErr result (λ fail. IfSome (read_refusal fail) IsPairRefusal) }
    ensures window { IfOk result (λ _. IsWindow (F.state folder.new) table window.new) }
    ensures folder { OnlyReads result (F.state folder.old) (F.state folder.new) }
{
    if folder.size(table) < HEAD_LEN {
        return Err(ReadFail::Bad(Bad::at(Code::NhntHead, 0)));
    }
    window.fill(folder, 0, HEAD_LEN as usize)?;
    let front = window.held(0, HEAD_LEN as usize);
    match head_in(front) {
        Ok(head) => Ok(head),
        Err(code) => Err(ReadFail::Bad(Bad::at(code, 0))),
    }
}
