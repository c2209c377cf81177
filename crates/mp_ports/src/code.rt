//! Why an input or a command is refused: a number that users see, and its name.

ghost use Rattle.std.specs.Prelude.{◌≡◌};
ghost use Rattle.mp_ports.specs.Code.{number, name};

/// The reason of a refusal, by the number that users see.
#[derive(Clone, Copy, Debug, PartialEq, Eq)]
pub enum Code {
    // Boxes (ISO/IEC 14496-12).
    /// A box, or its header, ends behind the file or the box that holds it.
    BoxCut = 10,
    /// The size of a box is less than its header, or is 0 inside another box.
    BoxSize = 11,
    /// A box that has to be there is missing; at the end of what should hold it.
    BoxMissing = 12,
    /// A box stands twice; at the second.
    BoxTwice = 13,
    /// The version of a box is none that is read.
    BoxVersion = 14,
    /// The file has movie fragments (`moof`, `mvex`).
    Fragmented = 15,
    /// The movie box is compressed (`!mov`, `cmov`).
    Compressed = 16,
    /// A sample entry is of a protected type (`encv`, `enca`, `enct`, `encs`).
    Encrypted = 17,
    /// A sample entry has its data in another file.
    External = 18,
    /// A track has the handler `hint`.
    HintTrack = 19,
    /// The movie box is longer than 268,435,456 bytes.
    MoovLimit = 20,
    /// A timescale is 0.
    ScaleZero = 21,
    /// The fields of a box don't fit its body.
    TableLength = 22,
    /// `stsc` doesn't give each sample its chunk.
    ChunkMap = 23,
    /// Two tables speak of different numbers of samples.
    CountMismatch = 24,
    /// The numbers of `stss` don't rise, or aren't those of samples.
    SyncOrder = 25,
    /// A sample ends behind the end of the file.
    SampleOutside = 26,
    /// A sample entry, or its data reference, is named by a number that none has.
    EntryIndex = 27,
    /// An edit that isn't empty has a rate other than 1.
    EditRate = 28,
    /// The media time of an edit is below -1.
    EditTime = 29,
    /// The flags of `elst` aren't 0.
    EditFlags = 30,
    /// A track number is 0, or that of an earlier track.
    TrackId = 31,

    // ADTS streams (ISO/IEC 14496-3).
    /// A frame doesn't begin with the syncword.
    AdtsSync = 40,
    /// A frame ends behind the file, or is shorter than its header.
    AdtsCut = 41,
    /// The layer of a frame isn't 0.
    AdtsLayer = 42,
    /// A frame holds more than one raw data block.
    AdtsBlocks = 43,
    /// A frame has another profile, frequency or channel configuration than the first.
    AdtsChange = 44,
    /// The frequency index of a frame is above 12.
    AdtsRate = 45,
    /// The channel configuration of a frame is 0.
    AdtsChannels = 46,
    /// The file has no bytes.
    AdtsEmpty = 47,

    // H.264 streams (ITU-T H.264).
    /// Bytes between units are neither zeros nor a start code, or a unit is empty.
    UnitFraming = 50,
    /// A unit is too long, or a 256th picture parameter set number comes.
    UnitLimit = 51,
    /// A unit has the forbidden bit, or a type other than 1 and 5 to 12.
    UnitType = 52,
    /// An element of a parameter set is cut off or out of its range.
    SetSyntax = 53,
    /// The profile is none that is read.
    SetProfile = 54,
    /// A parameter set differs from an earlier one of its number, or has a second sequence number.
    SetChange = 55,
    /// A slice names a parameter set that hasn't come.
    SetMissing = 56,
    /// An element of a slice header is cut off or out of its range.
    SliceSyntax = 57,
    /// A slice belongs to a field.
    FieldPicture = 58,
    /// The picture order count type is 1.
    PocType = 59,
    /// A slice has the memory management control operation 5.
    Marking5 = 60,
    /// A picture parameter set has more than one slice group.
    SliceGroups = 61,
    /// The first picture isn't an IDR picture.
    FirstNotIdr = 62,
    /// Two pictures of one coded video sequence have one picture order count.
    PocTie = 63,
    /// The stream has no picture.
    NoPicture = 64,
    /// The chroma format is 4:4:4.
    Chroma = 65,
    /// A slice belongs to a redundant coded picture.
    Redundant = 66,

    // NHNT tables.
    /// The head of the table is cut off, has another signature or timescale 0; or `.info` is too
    /// long.
    NhntHead = 70,
    /// A record is cut off.
    NhntCut = 71,
    /// The stream type or the object type is none that is read.
    NhntType = 72,
    /// A record is a part of an access unit.
    NhntUnit = 73,
    /// A decode time is below the one before.
    NhntOrder = 74,
    /// A record ends behind the end of the `.media` file.
    NhntRange = 75,

    // Commands and limits.
    /// No track has that number, or none was chosen.
    NoTrack = 80,
    /// A cut ends where it begins, or earlier.
    BadRange = 81,
    /// A negative delay is as long as the track, or longer.
    DelayPastEnd = 82,
    /// A time isn't whole in the timescale that is asked for.
    NotWhole = 83,
    /// A timescale would be above 4,294,967,295.
    ScaleLimit = 84,
    /// A sample lasts longer than 4,294,967,295 ticks of its track.
    DeltaLimit = 85,
    /// The composition offsets of a track fit neither 32 bits unsigned nor 32 bits signed.
    OffsetLimit = 86,
    /// The edits of a track last 2^62 ticks of the movie or more.
    DurationLimit = 87,
    /// An edit starts at 2^62 ticks of its track or later.
    StartLimit = 88,
    /// A sample is longer than 4,294,967,295 bytes.
    SizeLimit = 89,
    /// The movie has more than 8,388,608 samples.
    SampleLimit = 90,
    /// The movie has more than 64 tracks.
    TrackLimit = 91,
    /// A track has more than 255 sample entries.
    EntryLimit = 92,
    /// A track has more than 65,535 edits.
    SegmentLimit = 93,
    /// A track would get a number above 4,294,967,295.
    IdLimit = 94,
    /// The movie that is to be written has no track.
    EmptyMovie = 95,
}

impl Code {
    /// The number that users see.
    pub fn number(self) -> u32
        ensures { result ≡ number self }
    {
        self as u32
    }

    /// The name that users see.
    pub fn name(self) -> &'static str
        ensures { result.now ≡ name self }
    {
        match self {
            Code::BoxCut => "BoxCut",
            Code::BoxSize => "BoxSize",
            Code::BoxMissing => "BoxMissing",
            Code::BoxTwice => "BoxTwice",
            Code::BoxVersion => "BoxVersion",
            Code::Fragmented => "Fragmented",
            Code::Compressed => "Compressed",
            Code::Encrypted => "Encrypted",
            Code::External => "External",
            Code::HintTrack => "HintTrack",
            Code::MoovLimit => "MoovLimit",
            Code::ScaleZero => "ScaleZero",
            Code::TableLength => "TableLength",
            Code::ChunkMap => "ChunkMap",
            Code::CountMismatch => "CountMismatch",
            Code::SyncOrder => "SyncOrder",
            Code::SampleOutside => "SampleOutside",
            Code::EntryIndex => "EntryIndex",
            Code::EditRate => "EditRate",
            Code::EditTime => "EditTime",
            Code::EditFlags => "EditFlags",
            Code::TrackId => "TrackId",
            Code::AdtsSync => "AdtsSync",
            Code::AdtsCut => "AdtsCut",
            Code::AdtsLayer => "AdtsLayer",
            Code::AdtsBlocks => "AdtsBlocks",
            Code::AdtsChange => "AdtsChange",
            Code::AdtsRate => "AdtsRate",
            Code::AdtsChannels => "AdtsChannels",
            Code::AdtsEmpty => "AdtsEmpty",
            Code::UnitFraming => "UnitFraming",
            Code::UnitLimit => "UnitLimit",
            Code::UnitType => "UnitType",
            Code::SetSyntax => "SetSyntax",
            Code::SetProfile => "SetProfile",
            Code::SetChange => "SetChange",
            Code::SetMissing => "SetMissing",
            Code::SliceSyntax => "SliceSyntax",
            Code::FieldPicture => "FieldPicture",
            Code::PocType => "PocType",
            Code::Marking5 => "Marking5",
            Code::SliceGroups => "SliceGroups",
            Code::FirstNotIdr => "FirstNotIdr",
            Code::PocTie => "PocTie",
            Code::NoPicture => "NoPicture",
            Code::Chroma => "Chroma",
            Code::Redundant => "Redundant",
            Code::NhntHead => "NhntHead",
            Code::NhntCut => "NhntCut",
            Code::NhntType => "NhntType",
            Code::NhntUnit => "NhntUnit",
            Code::NhntOrder => "NhntOrder",
            Code::NhntRange => "NhntRange",
            Code::NoTrack => "NoTrack",
            Code::BadRange => "BadRange",
            Code::DelayPastEnd => "DelayPastEnd",
            Code::NotWhole => "NotWhole",
            Code::ScaleLimit => "ScaleLimit",
            Code::DeltaLimit => "DeltaLimit",
            Code::OffsetLimit => "OffsetLimit",
            Code::DurationLimit => "DurationLimit",
            Code::StartLimit => "StartLimit",
            Code::SizeLimit => "SizeLimit",
            Code::SampleLimit => "SampleLimit",
            Code::TrackLimit => "TrackLimit",
            Code::EntryLimit => "EntryLimit",
            Code::SegmentLimit => "SegmentLimit",
            Code::IdLimit => "IdLimit",
            Code::EmptyMovie => "EmptyMovie",
        }
    }
}
