//! The law of the edit list: what is written is read (ISO/IEC 14496-12, 8.6.5 and 8.6.6).

ghost use Rattle.mp_edits.specs.EditBox.{EditsAreRead};

use mp_boxes::{boxes_have_lengths, parts_are_found, tables_are_read};

/// Edits that are written are read as just these, and they are the same wherever their boxes stand.
pub fn edits_are_read()
    ensures { EditsAreRead }
{
    tables_are_read();
    parts_are_found();
    boxes_have_lengths();
}
