//! Why what is answered is a sample entry: calls that do nothing, whose contracts say so.

ghost use Rattle.mp_entries.specs.Whole.{HeadStays, WrittenIsWhole};
ghost use Rattle.mp_entries.specs.Kept.{EntriesAreKept};
ghost use Rattle.mp_entries.specs.Reference.{ReferencesAreRead};
ghost use Rattle.mp_entries.specs.Description.{DescriptionsAreRead, KeptAreEntries};

use mp_boxes::{boxes_are_read, boxes_are_whole, heads_are_read, numbers_are_read};

/// The head of a whole box stays where its body becomes another of the same length.
pub fn head_stays()
    ensures { HeadStays }
{
    heads_are_read();
}

/// A box that is written is whole, with a header of 8 bytes.
pub fn written_is_whole()
    ensures { WrittenIsWhole }
{
    heads_are_read();
}

/// An entry of the first data reference is kept as it is, where that data is in the file itself.
pub fn entries_are_kept()
    ensures { EntriesAreKept }
{}

/// The data reference that is written is read: the data is in this file.
pub fn references_are_read()
    ensures { ReferencesAreRead }
{}

/// The entries that are written are read, each as it is.
pub fn descriptions_are_read()
    ensures { DescriptionsAreRead }
{
    numbers_are_read();
    boxes_are_read();
    boxes_are_whole();
    entries_are_kept();
}

/// What is kept of a whole box of bytes is an entry, and of a table there are not too many.
pub fn kept_are_entries()
    ensures { KeptAreEntries }
{
    head_stays();
}
