//! The header of an ADTS frame.

ghost use Rattle.std.specs.Prelude.{◌≡◌, ◌+◌, ◌≤◌, ◌<◌, ◌^◌, ℕ, List, true, length, min, IfOk, IfErr};
ghost use Rattle.mp_ports.specs.Checks.{Checks};
ghost use Rattle.adts_import.specs.Header.{front_number, bits};
ghost use Rattle.adts_import.specs.Frame.{header_fault, header_of, IsHeader, is_stream_code};

use mp_ports::Code;

const SYNC: u64 = 0xFFF;

const LAST_FREQUENCY_INDEX: u8 = 12;

/// What is one for a whole stream: the profile (object type less 1), the index of its frequency and
/// its channel configuration (ISO/IEC 14496-3, 1.A.3.2.1).
#[derive(Clone, Copy, Debug, PartialEq, Eq)]
pub(crate) struct Configuration {
    pub(crate) profile: u8,
    pub(crate) frequency_index: u8,
    pub(crate) channels: u8,
}

/// The fields of a frame's header that the import needs; lengths in bytes.
#[derive(Clone, Copy, Debug, PartialEq, Eq)]
pub(crate) struct Header {
    pub(crate) configuration: Configuration,
    pub(crate) header_len: u32,
    pub(crate) frame_len: u32,
}

/// The first seven bytes as one number.
#[tactic(auto, unfolding(crate::specs::Header::front_number))]
fn front_number(frame: &[u8]) -> u64
    requires { 7 ≤ length frame.now }
    ensures { result ≡ front_number frame.now }
{
    u64::from_be_bytes([
        0, frame[0], frame[1], frame[2], frame[3], frame[4], frame[5], frame[6],
    ])
}

/// The field of `count` bits behind the first `from` bits of the header whose number is `front`.
#[tactic(auto, unfolding(crate::specs::Header::bits))]
fn bits(front: u64, from: u32, count: u32) -> u64
    requires { from + count ≤ 56 }
    ensures value { result ≡ bits front from count }
    ensures below { result < 2 ^ count }
{
    (front >> (56 - (from + count))) & ((1 << count) - 1)
}

/// Reads the header of the frame that begins with `front`, where `left` bytes are left with it, and tests
/// the frame. `front` is the first seven of them, or all.
///
/// `AdtsCut` where the frame ends behind them, `AdtsSync`, `AdtsLayer`, `AdtsRate`, `AdtsChannels` and
/// `AdtsBlocks` where that field is none of a frame of AAC with one block.
#[tactic(auto, unfolding(crate::specs::Frame::header_fault))]
pub(crate) fn read_header(front: &[u8], left: u64) -> Result<Header, Code>
    requires { length front.now ≡ min left 7 }
    ensures fault { Checks result (header_fault front.now left) }
    ensures header { IfOk result (λ header. header ≡ header_of front.now) }
    ensures bounds { IfOk result (λ header. IsHeader header left) }
    ensures code { IfErr result (λ code. is_stream_code code ≡ true) }
{
    if left < 7 {
        return Err(Code::AdtsCut);
    }
    let front = front_number(front);
    if bits(front, 0, 12) != SYNC {
        return Err(Code::AdtsSync);
    }
    if bits(front, 13, 2) != 0 {
        return Err(Code::AdtsLayer);
    }
    let header = fields_of(front);
    if header.configuration.frequency_index > LAST_FREQUENCY_INDEX {
        return Err(Code::AdtsRate);
    }
    if header.configuration.channels == 0 {
        return Err(Code::AdtsChannels);
    }
    if header.frame_len < header.header_len || left < u64::from(header.frame_len) {
        return Err(Code::AdtsCut);
    }
    if bits(front, 54, 2) != 0 {
        return Err(Code::AdtsBlocks);
    }
    Ok(header)
}

/// The fields of the header whose number is `front`.
fn fields_of(front: u64) -> Header
    ensures fields { (frame : List ℕ) → front_number frame ≡ front → result ≡ header_of frame }
    ensures profile { result.configuration.profile < 4 }
    ensures channels { result.configuration.channels < 8 }
    ensures frame_len { result.frame_len < 2 ^ 13 }
{
    let configuration = Configuration {
        profile: bits(front, 16, 2) as u8,
        frequency_index: bits(front, 18, 4) as u8,
        channels: bits(front, 23, 3) as u8,
    };
    let header_len = if bits(front, 15, 1) == 0 { 9 } else { 7 };
    let frame_len = bits(front, 30, 13) as u32;
    Header {
        configuration,
        header_len,
        frame_len,
    }
}
