//! The sample entry of AAC sound.

ghost use Rattle.std.specs.Prelude.{◌≡◌, ◌<◌, ◌^◌, length, IfOk};
ghost use Rattle.mp_boxes.specs.Boxes.{IsBytes};
ghost use Rattle.mp_entries.specs.Entry.{IsEntry};
ghost use Rattle.adts_import.specs.Frame.{IsConfiguration};
ghost use Rattle.adts_import.specs.Entry.{frequency, loudspeakers, audio_config, entry_bytes};

use crate::header::Configuration;
use mp_entries::{EsdsEntry, esds_entry};
use mp_ports::NoMemory;
use mp_timeline::EntryBytes;
use std::alloc::Global;

/// Samples a second, by the index in the header (ISO/IEC 14496-3, 1.6.3.4).
const FREQUENCIES: [u32; 13] = [
    96000, 88200, 64000, 48000, 44100, 32000, 24000, 22050, 16000, 12000, 11025, 8000, 7350,
];

/// The object type of AAC (ISO/IEC 14496-1, 7.2.6.6).
const AAC: u8 = 0x40;

impl Configuration {
    /// Samples a second.
    pub(crate) fn frequency(self) -> u32
        requires { IsConfiguration self }
        ensures { result ≡ frequency self }
    {
        FREQUENCIES[self.frequency_index as usize]
    }

    /// How many loudspeakers the channels are for.
    fn loudspeakers(self) -> u16
        ensures { result ≡ loudspeakers self }
    {
        if self.channels == 7 {
            8
        } else {
            u16::from(self.channels)
        }
    }

    /// The AudioSpecificConfig.
    fn audio_config(self) -> [u8; 2]
        requires { IsConfiguration self }
        ensures { result ≡ audio_config self }
    {
        let object_type = u16::from(self.profile) + 1;
        let index = u16::from(self.frequency_index);
        let channels = u16::from(self.channels);
        (object_type * (1 << 11) + index * (1 << 7) + channels * (1 << 3)).to_be_bytes()
    }
}

/// The sample entry `mp4a` of the configuration: the whole box.
#[tactic(auto, unfolding(crate::specs::Entry::entry_bytes))]
pub(crate) fn sound_entry(
    alloc: Global,
    configuration: Configuration,
) -> Result<EntryBytes, NoMemory>
    requires { IsConfiguration configuration }
    ensures written { IfOk result (λ entry. entry ≡ entry_bytes configuration) }
    ensures well_formed { IfOk result (λ entry. IsEntry entry) }
    ensures bytes { IfOk result (λ entry. IsBytes entry) }
    ensures short { IfOk result (λ entry. length entry < 2 ^ 24) }
{
    let fields = EsdsEntry {
        audio: true,
        object: AAC,
        channels: configuration.loudspeakers(),
        rate: configuration.frequency(),
        buffer: 0,
        maximal: 0,
        average: 0,
        info: Vec::from_slice(alloc, &configuration.audio_config())?,
    };
    let bytes = esds_entry(alloc, &fields)?;
    are_bytes(&bytes);
    Ok(EntryBytes { bytes })
}

/// Each is below 256, as their type says. It does nothing.
fn are_bytes(bytes: &[u8])
    ensures { IsBytes bytes.now }
{}
