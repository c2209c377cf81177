// How a window stands through which pieces are copied.
ghost use Rattle.std.specs.Prelude.{◌≡◌, ◌+◌, ◌-◌, ◌<◌, ◌≤◌, ◌++◌, length, take, drop, IsTrue};
ghost use Rattle.mp_ports.specs.Folder.{FolderState};
ghost use Rattle.mp_pieces.specs.Gathered.{IsAhead, IsStand, Keeps, blank_stand, gathered};

/// The front of the window, `kept` bytes, is to be appended. Bytes of a file that were read ahead stand from
/// `begin` up to `end`; the last of them is the one in front of the place `to` of that file.
#[derive(Clone, Copy)]
pub(crate) struct Stand {
    pub(crate) kept: usize,
    pub(crate) begin: usize,
    pub(crate) end: usize,
    pub(crate) file: u32,
    pub(crate) to: u64,
}

/// A window with nothing in it.
pub(crate) fn blank_stand() -> Stand
    ensures { result ≡ blank_stand }
{
    Stand {
        kept: 0,
        begin: 0,
        end: 0,
        file: 0,
        to: 0,
    }
}

/// Whether the byte at that place of the file was read ahead.
pub(crate) fn is_ahead(stand: Stand, file: u32, at: u64) -> bool
    requires { stand.begin ≤ stand.end }
    ensures { IsTrue result → IsAhead stand file at }
{
    if stand.file != file || stand.to <= at {
        return false;
    }
    stand.to - at <= (stand.end - stand.begin) as u64
}

/// How many bytes fit behind what is kept, and in front of that byte of the file where it was read ahead.
pub(crate) fn room_before(stand: Stand, file: u32, at: u64, room: usize) -> usize
    requires kept { stand.kept ≤ stand.begin }
    requires ahead { stand.begin ≤ stand.end }
    requires room { stand.end ≤ room }
    ensures { stand.kept + result ≤ room }
{
    if is_ahead(stand, file, at) {
        stand.end - (stand.to - at) as usize - stand.kept
    } else {
        room - stand.kept
    }
}

/// Puts bytes into the window at that index.
fn put_at(window: &mut [u8], at: usize, bytes: &[u8]) -> usize
    requires { at + length bytes.now ≤ length window.old }
    ensures end { result ≡ at + length bytes.now }
    ensures put { take result window.new ≡ take at window.old ++ bytes.now }
    ensures behind { drop result window.new ≡ drop result window.old }
    ensures room { length window.new ≡ length window.old }
{
    let end = at + bytes.len();
    window[at..end].copy_from_slice(bytes);
    end
}

/// Puts bytes behind what is kept, over what was read ahead there.
pub(crate) fn put(window: &mut [u8], stand: Stand, bytes: &[u8]) -> Stand
    requires room { stand.kept + length bytes.now ≤ length window.old }
    ensures kept { gathered window.new result ≡ gathered window.old stand ++ bytes.now }
    ensures stands { (s : FolderState) → IsStand s window.old stand → IsStand s window.new result }
    ensures room { length window.new ≡ length window.old }
{
    let kept = put_at(window, stand.kept, bytes);
    Stand {
        kept,
        begin: stand.begin.max(kept),
        end: stand.end.max(kept),
        file: stand.file,
        to: stand.to,
    }
}

/// Moves so many bytes of the window from one index forward to another.
fn forward(window: &mut [u8], from: usize, to: usize, count: usize)
    requires order { to ≤ from }
    requires inside { from + count ≤ length window.old }
    ensures moved { take (to + count) window.new ≡ take to window.old ++ take count (drop from window.old) }
    ensures behind { drop (from + count) window.new ≡ drop (from + count) window.old }
    ensures room { length window.new ≡ length window.old }
{
    if from != to {
        window.copy_within(from..from + count, to);
    }
}

/// Moves so many bytes that were read ahead, from the place `at` of their file on, behind what is kept.
pub(crate) fn keep(window: &mut [u8], stand: Stand, at: u64, count: usize) -> Stand
    requires kept { stand.kept ≤ stand.begin }
    requires ahead { stand.begin ≤ stand.end }
    requires room { stand.end ≤ length window.old }
    requires behind { stand.to - at ≤ stand.end - stand.begin }
    requires inside { at + count ≤ stand.to }
    ensures kept { (s : FolderState) → IsStand s window.old stand
        → Keeps s window.old window.new stand result at count }
    ensures room { length window.new ≡ length window.old }
{
    let from = stand.end - (stand.to - at) as usize;
    forward(window, from, stand.kept, count);
    Stand {
        kept: stand.kept + count,
        begin: from + count,
        end: stand.end,
        file: stand.file,
        to: stand.to,
    }
}
