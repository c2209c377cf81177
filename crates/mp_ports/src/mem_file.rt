//! A file that a folder in memory holds, and where a name is found.

ghost use Rattle.std.specs.Prelude.{◌≡◌, ◌<◌, length, None, IfNone, IfSome};
ghost use Rattle.mp_ports.specs.Folder.{bytes_under};
ghost use Rattle.mp_ports.specs.Memory.{opened_file};

use std::marker::Model;

/// A file that a folder in memory holds.
#[derive(Drop)]
pub struct MemFile {
    /// The name under which it is opened. Of two files with one name the first counts.
    pub name: String,
    /// All bytes of the file.
    pub bytes: Vec<u8>,
}

impl Model for MemFile {
    ghost use Rattle.std.specs.Prelude.{string_bytes};
    ghost use Rattle.mp_ports.specs.Folder.{HeldFile};

    ghost Value = { HeldFile };

    ghost view = { λ f. record { name = string_bytes f.name; bytes = f.bytes.items } };
}

/// The place of the first file of that name.
pub(crate) fn place_of(files: &[MemFile], name: &str) -> Option<usize>
    ensures none { IfNone result (bytes_under name.now files.now ≡ None) }
    ensures within { IfSome result (λ at. at < length files.now) }
    ensures bytes { IfSome result
        (λ at. bytes_under name.now files.now ≡ (opened_file files.now at).bytes) }
    ensures named { IfSome result (λ at. (opened_file files.now at).name ≡ name.now) }
{
    for (at, file) in files.iter().enumerate() {
        if file.name.as_str() == name {
            return Some(at);
        }
    }
    None
}
