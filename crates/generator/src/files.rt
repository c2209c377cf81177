//! The three files for a number of pictures.

ghost use Rattle.std.specs.Prelude.{◌≡◌, ◌<◌, ◌≤◌, ◌+◌, ◌*◌, ◌^◌, ◌++◌, ◌∷◌, [], IfOk, OnOk};
ghost use Rattle.std.specs.Int.{w32, to_be_bytes};
ghost use Rattle.generator.specs.Files.{most, picture_len, picture_from, picture_flags, picture_shown, picture_record, table_head, table, media};
ghost use Rattle.generator.specs.Files.{frame_rest, frame_head, frame_byte, frame, frame_count, stream};

use mp_ports::NoMemory;
use std::alloc::Global;

/// The head of the table.
const HEAD: [u8; 24] = [
    b'N', b'H', b'n', b't', 0, 4, 0x20, 0, 0, 0, 0, 0, 0, 0, 0, 0, 0, 0, 0, 0, 0, 0, 0, 25,
];

/// The NHNT table of so many pictures, at most 1,000,000.
#[tactic(auto, using(crate::proofs::Growing::flat_more, crate::proofs::Growing::sum_more))]
pub fn table(alloc: Global, pictures: u32) -> Result<Vec<u8>, NoMemory>
    requires { pictures ≤ most }
    ensures { IfOk result (λ made. made.items ≡ table pictures) }
{
    let mut made = Vec::new(alloc);
    made.extend_from_slice(&HEAD)?;
    let mut from = 0;
    for picture in 0..pictures {
        push_record(&mut made, picture, from)?;
        from += picture_len(picture);
    }
    Ok(made)
}

/// The record of a picture that lies there.
#[tactic(auto, unfolding(crate::specs::Files::picture_record))]
fn push_record(made: &mut Vec<u8>, picture: u32, from: u32) -> Result<(), NoMemory>
    requires few { picture < most }
    requires from { from ≡ picture_from picture }
    ensures { OnOk result (made.new.items ≡ made.old.items ++ picture_record picture) }
{
    made.extend_from_slice(&[0, 0, picture_len(picture) as u8, picture_flags(picture)])?;
    made.extend_from_slice(&from.to_be_bytes())?;
    made.extend_from_slice(&picture_shown(picture).to_be_bytes())?;
    made.extend_from_slice(&picture.to_be_bytes())?;
    Ok(())
}

/// The bytes of a picture.
fn picture_len(picture: u32) -> u32
    requires { picture < most }
    ensures same { result ≡ picture_len picture }
    ensures short { result < 150 }
{
    100 + 37 * picture % 50
}

/// Its flags.
fn picture_flags(picture: u32) -> u8
    ensures { result ≡ picture_flags picture }
{
    if picture % 12 == 0 { 0xE0 } else { 0x60 }
}

/// Its composition time.
fn picture_shown(picture: u32) -> u32
    requires { picture < most }
    ensures { result ≡ picture_shown picture }
{
    if picture % 3 == 0 {
        picture + 3
    } else {
        picture
    }
}

/// How many bytes so many pictures have.
#[tactic(auto, using(crate::proofs::Growing::sum_more))]
fn media_len(pictures: u32) -> u32
    requires { pictures ≤ most }
    ensures { result ≡ picture_from pictures }
{
    let mut len = 0;
    for picture in 0..pictures {
        len += picture_len(picture);
    }
    len
}

/// The bytes of so many pictures, at most 1,000,000.
#[tactic(auto, using(crate::proofs::Growing::map_more))]
pub fn media(alloc: Global, pictures: u32) -> Result<Vec<u8>, NoMemory>
    requires { pictures ≤ most }
    ensures { IfOk result (λ made. made.items ≡ media pictures) }
{
    let mut made = Vec::new(alloc);
    for place in 0..media_len(pictures) {
        made.push((place % 251) as u8)?;
    }
    Ok(made)
}

/// The ADTS stream beside so many pictures, at most 1,000,000.
#[tactic(auto, using(crate::proofs::Growing::flat_more))]
pub fn stream(alloc: Global, pictures: u32) -> Result<Vec<u8>, NoMemory>
    requires { pictures ≤ most }
    ensures { IfOk result (λ made. made.items ≡ stream pictures) }
{
    let mut made = Vec::new(alloc);
    for number in 0..frame_count(pictures) {
        push_frame(&mut made, number)?;
    }
    Ok(made)
}

/// How many frames it has.
fn frame_count(pictures: u32) -> u32
    requires { pictures ≤ most }
    ensures same { result ≡ frame_count pictures }
    ensures few { result ≤ 2 * most }
{
    (u64::from(pictures) * 44_100 / 25_600) as u32 + 1
}

/// The frame of that number.
#[tactic(auto, unfolding(crate::specs::Files::frame))]
fn push_frame(made: &mut Vec<u8>, number: u32) -> Result<(), NoMemory>
    requires { number < 2 * most }
    ensures { OnOk result (made.new.items ≡ made.old.items ++ frame number) }
{
    made.extend_from_slice(&frame_head(number))?;
    for place in 0..8 + number % 16 {
        made.push(frame_byte(number, place))?;
    }
    Ok(())
}

/// The byte of the frame there behind its header.
#[tactic(auto, unfolding(crate::specs::Files::frame_byte))]
fn frame_byte(number: u32, place: u32) -> u8
    requires { number + place < 2 ^ 32 }
    ensures { result ≡ frame_byte number place }
{
    ((number + place) % 256) as u8
}

/// Its header.
fn frame_head(number: u32) -> [u8; 7]
    ensures { result ≡ frame_head number }
{
    let len = 15 + (number % 16) as u8;
    [0xFF, 0xF1, 0x50, 0x80, len / 8, len % 8 * 32 + 0x1F, 0xFC]
}
