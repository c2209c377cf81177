// Names of files.
ghost use Rattle.std.specs.Prelude.{◌≡◌, ◌≤◌, length, bytes_eq, Some};
ghost use Rattle.std.specs.List.{list_any};
ghost use Rattle.std.specs.Str.{str_eq_ignore_ascii_case};
ghost use Rattle.mp_words.specs.Names.{ends_with, kind_of, is_mp4, beside, files_with};

/// The kind of a file.
#[derive(Clone, Copy, Debug, PartialEq, Eq)]
pub enum FileKind {
    /// An MP4 file.
    Mp4,
    /// A stream of H.264.
    Avc,
    /// A stream of ADTS frames.
    Adts,
    /// The table of an NHNT pair.
    Nhnt,
}

/// The kind of a file, by the suffix of its name in either ASCII case.
pub fn kind_of(name: &str) -> Option<FileKind>
    ensures { result ≡ kind_of name.now }
{
    if ends_with(name, ".mp4") || ends_with(name, ".m4a") || ends_with(name, ".m4v") {
        Some(FileKind::Mp4)
    } else if ends_with(name, ".h264") || ends_with(name, ".264") || ends_with(name, ".avc") {
        Some(FileKind::Avc)
    } else if ends_with(name, ".aac") || ends_with(name, ".adts") {
        Some(FileKind::Adts)
    } else if ends_with(name, ".nhnt") {
        Some(FileKind::Nhnt)
    } else {
        None
    }
}

/// The name is that of an MP4 file.
pub fn is_mp4_name(name: &str) -> bool
    ensures { result ≡ is_mp4 (kind_of name.now) }
{
    matches!(kind_of(name), Some(FileKind::Mp4))
}

fn ends_with(name: &str, suffix: &str) -> bool
    ensures { result ≡ ends_with name.now suffix.now }
{
    let name = name.as_bytes();
    let from = name.len().saturating_sub(suffix.len());
    is_same_word(&name[from..], suffix.as_bytes())
}

// In either ASCII case.
fn is_same_word(word: &[u8], other: &[u8]) -> bool
    ensures { result ≡ str_eq_ignore_ascii_case word.now other.now }
{
    word.eq_ignore_ascii_case(other)
}

/// The file is one of those that are read with an input of that name.
pub fn is_read_with(file: &str, input: &str) -> bool
    ensures { result ≡ list_any (bytes_eq file.now) (files_with (kind_of input.now) input.now) }
{
    match kind_of(input) {
        Some(FileKind::Nhnt) => {
            file == input || is_beside(file, input, ".media") || is_beside(file, input, ".info")
        }
        _ => file == input,
    }
}

/// The file is the one with that suffix beside an NHNT table of that name.
#[tactic(auto, using(crate::proofs::JoinedTexts::begins, crate::proofs::JoinedTexts::begins_otherwise))]
fn is_beside(file: &str, input: &str, suffix: &str) -> bool
    ensures { result ≡ bytes_eq file.now (beside input.now suffix.now) }
{
    let stem = &input.as_bytes()[..input.len().saturating_sub(5)];
    match file.as_bytes().strip_prefix(stem) {
        Some(rest) => rest == suffix.as_bytes(),
        None => false,
    }
}
