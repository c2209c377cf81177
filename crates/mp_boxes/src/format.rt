//! Laws of boxes that are read as they were written (ISO/IEC 14496-12, 4.2): calls that do nothing, whose
//! contracts are the laws.

ghost use Rattle.mp_boxes.specs.Format.{PartsAreFound};
ghost use Rattle.mp_boxes.specs.Table.{BoxesHaveLengths, TablesAreRead};

/// The parts of boxes that are written one after another are these boxes, and a text has the same parts
/// wherever it stands. The boxes that some parts are have these parts.
pub fn parts_are_found()
    ensures { PartsAreFound }
{}

/// The bytes of boxes are as long as the boxes.
pub fn boxes_have_lengths()
    ensures { BoxesHaveLengths }
{}

/// A table that is written is read.
pub fn tables_are_read()
    ensures { TablesAreRead }
{}
