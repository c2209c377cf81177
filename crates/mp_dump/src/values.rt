//! The values in a JSON text: texts, entries, edits, and the numbers of a sample. Each is written as its compact
//! text: strings by `serde_json`, numbers by `itoa`.

ghost use Rattle.std.specs.Prelude.{◌≡◌, ◌≤◌, ◌++◌, codes, decimal, if◌then◌else◌, length, option_map, string_bytes, All, IfOk, IsAscii, OnOk};
ghost use Rattle.serde_json.specs.Data.{array, boolean, string};
ghost use Rattle.serde_json.specs.Written.{comma_if, compact_text};
ghost use Rattle.mp_dump.specs.Json.{edits_value, items, row_value, segment_value};
ghost use Rattle.mp_dump.specs.Words.{entry_type};

use crate::put::{entry_type, put_field, put_number, put_signed};
use crate::row::Row;
use mp_timeline::{EntryBytes, Segment};
use serde_json::Value;
use std::alloc::{AllocError, Global};

/// A comma, where something stands before.
pub fn put_comma(out: &mut Vec<u8>, later: bool) -> Result<(), AllocError>
    ensures { OnOk result (out.new.items ≡ out.old.items ++ comma_if later) }
{
    if later {
        return out.extend_from_slice(b",");
    }
    Ok(())
}

/// `true` or `false`.
pub fn put_boolean(out: &mut Vec<u8>, value: bool) -> Result<(), AllocError>
    ensures { OnOk result (out.new.items ≡ out.old.items ++ compact_text (boolean value)) }
{
    if value {
        out.extend_from_slice(b"true")
    } else {
        out.extend_from_slice(b"false")
    }
}

/// A text, quoted and with escapes.
pub fn put_string(out: &mut Vec<u8>, text: &[u8]) -> Result<(), AllocError>
    requires { IsAscii text.now }
    ensures { OnOk result (out.new.items ≡ out.old.items ++ compact_text (string text.now)) }
{
    let alloc = *out.allocator();
    out.extend_from_slice(string_text(alloc, text)?.as_bytes())
}

/// Its bytes are whole characters, so that none is replaced.
fn string_text(alloc: Global, text: &[u8]) -> Result<String, AllocError>
    requires { IsAscii text.now }
    ensures { IfOk result (λ written. string_bytes written ≡ compact_text (string text.now)) }
{
    Value::String(String::from_utf8_lossy(alloc, text)?).to_string(alloc)
}

/// The types of the entries.
pub fn put_entries(out: &mut Vec<u8>, entries: &[EntryBytes]) -> Result<(), AllocError>
    requires { All (λ entry. 8 ≤ length entry) entries.now }
    ensures { OnOk result (out.new.items ≡ out.old.items
        ++ compact_text (array (items (λ entry. string (entry_type entry)) entries.now))) }
{
    out.extend_from_slice(b"[")?;
    let mut later = false;
    for entry in entries {
        put_comma(out, later)?;
        put_string(out, &entry_type(&entry.bytes))?;
        later = true;
    }
    out.extend_from_slice(b"]")
}

/// The edit list, or `null`.
pub fn put_edits(out: &mut Vec<u8>, edits: &Option<Vec<Segment>>) -> Result<(), AllocError>
    ensures { OnOk result (out.new.items ≡ out.old.items
        ++ compact_text (edits_value (option_map (λ list. list.items) edits.now))) }
{
    match edits {
        None => out.extend_from_slice(b"null"),
        Some(edits) => put_segments(out, edits),
    }
}

/// The segments.
fn put_segments(out: &mut Vec<u8>, edits: &[Segment]) -> Result<(), AllocError>
    ensures { OnOk result (out.new.items ≡ out.old.items ++ compact_text (array (items segment_value edits.now))) }
{
    out.extend_from_slice(b"[")?;
    let mut later = false;
    for segment in edits {
        put_comma(out, later)?;
        put_segment(out, *segment)?;
        later = true;
    }
    out.extend_from_slice(b"]")
}

/// A segment; an empty one has no start.
#[tactic(auto, unfolding(crate::specs::Json::segment_value, json::specs::Print::escape_byte))]
fn put_segment(out: &mut Vec<u8>, segment: Segment) -> Result<(), AllocError>
    ensures { OnOk result (out.new.items ≡ out.old.items ++ compact_text (segment_value segment)) }
{
    out.extend_from_slice(b"{\"duration\":")?;
    match segment {
        Segment::Empty { dur } => {
            put_number(out, dur)?;
            out.extend_from_slice(b",\"start\":null}")
        }
        Segment::Media { start, dur } => {
            put_number(out, dur)?;
            out.extend_from_slice(b",\"start\":")?;
            put_number(out, start)?;
            out.extend_from_slice(b"}")
        }
    }
}

/// The numbers of a sample.
pub fn put_row(out: &mut Vec<u8>, row: Row) -> Result<(), AllocError>
    ensures { OnOk result (out.new.items ≡ out.old.items ++ compact_text (row_value row)) }
{
    put_field(out, b"[", row.size)?;
    put_field(out, b",", row.decode)?;
    put_field(out, b",", row.dur)?;
    put_signed(out, b",", row.comp)?;
    put_mark(out, row.sync)?;
    put_field(out, b",", row.entry)?;
    out.extend_from_slice(b"]")?;
    Ok(())
}

/// A comma, and 1 for a sync sample, or 0.
fn put_mark(out: &mut Vec<u8>, sync: bool) -> Result<(), AllocError>
    ensures { OnOk result (out.new.items ≡ out.old.items ++ (codes "," ++ decimal (if sync then 1 else 0))) }
{
    put_field(out, b",", u8::from(sync))
}
