//! The sample entry of a pair.

ghost use Rattle.std.specs.Prelude.{◌≡◌, ◌<◌, ◌≤◌, ◌^◌, length, IfOk};
ghost use Rattle.mp_boxes.specs.Boxes.{IsBytes};
ghost use Rattle.mp_movie.specs.WellFormed.{IsEntryBox};
ghost use Rattle.nhnt_import.specs.Entry.{entry_bytes, handler};
ghost use Rattle.nhnt_import.specs.Fault.{most_info};
ghost use Rattle.nhnt_import.specs.Head.{IsHead};

use crate::head::Head;
use mp_entries::{EsdsEntry, esds_entry};
use mp_ports::NoMemory;
use mp_timeline::EntryBytes;
use std::alloc::Global;

/// The channels of sound: a table doesn't tell them.
const CHANNELS: u16 = 2;

/// The handler of the track.
pub(crate) fn handler(head: Head) -> [u8; 4]
    ensures { result ≡ handler head }
{
    if head.sound { *b"soun" } else { *b"vide" }
}

/// The sample entry `mp4a` or `mp4v` with this configuration of the decoder: the whole box.
#[tactic(auto, unfolding(crate::specs::Entry::entry_bytes))]
pub(crate) fn pair_entry(alloc: Global, head: Head, info: Vec<u8>) -> Result<EntryBytes, NoMemory>
    requires fits { IsHead head }
    requires info { length info.items ≤ most_info }
    ensures written { IfOk result (λ entry. entry ≡ entry_bytes head info.items) }
    ensures entry { IfOk result (λ entry. IsEntryBox entry) }
{
    let fields = EsdsEntry {
        audio: head.sound,
        object: head.object,
        channels: CHANNELS,
        rate: head.scale,
        buffer: head.buffer,
        maximal: head.maximal,
        average: head.average,
        info,
    };
    let bytes = esds_entry(alloc, &fields)?;
    are_bytes(&bytes);
    Ok(EntryBytes { bytes })
}

/// Each is below 256, as their type says. It does nothing.
fn are_bytes(bytes: &[u8])
    ensures { IsBytes bytes.now }
{}
