//! The fields that boxes are made of (ISO/IEC 14496-12, 4.2).

/// One field of a box, as it is written, most significant byte first.
#[derive(Clone, Copy, Debug)]
pub enum Field<'a> {
    /// 16 bits.
    U16(u16),
    /// 32 bits.
    U32(u32),
    /// 64 bits.
    U64(u64),
    /// Bytes as they stand.
    Bytes(&'a [u8]),
}

impl<'a> Field<'a> {
    ghost use Rattle.std.specs.Prelude.{◌≡◌, ◌<◌, ◌^◌, IsFalse};
    ghost use Rattle.mp_boxes.specs.Field.{time, version_and_flags};

    /// A time or a duration: 64 bits in version 1 of its box, 32 in version 0.
    pub fn time(wide: bool, ticks: u64) -> Self
        requires { IsFalse wide → ticks < 2 ^ 32 }
        ensures { result ≡ time wide ticks }
    {
        if wide {
            Field::U64(ticks)
        } else {
            Field::U32(ticks as u32)
        }
    }

    /// Version and flags of a full box (4.2): version 1 where it is wide, else 0.
    pub fn version_and_flags(wide: bool, flags: u32) -> Self
        requires { flags < 2 ^ 24 }
        ensures { result ≡ version_and_flags wide flags }
    {
        Field::U32(if wide { (1 << 24) + flags } else { flags })
    }
}
