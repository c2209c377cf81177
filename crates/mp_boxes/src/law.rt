//! Laws of boxes (ISO/IEC 14496-12, 4.2): calls that do nothing, whose contracts are the laws.

ghost use Rattle.mp_boxes.specs.Laws.{BoxesAreRead, BoxesAreWhole, HeadsAreRead, NumbersAreRead};
ghost use Rattle.mp_boxes.specs.Parts.{PartsAreRead};
ghost use Rattle.mp_boxes.specs.Push.{PiecesMayBeCut};
ghost use Rattle.mp_boxes.specs.Reading.{FieldsAreRead};

/// A number is read where it was written, and so is a type.
pub fn numbers_are_read()
    ensures { NumbersAreRead }
{}

/// Fields are read from left to right as they were written.
pub fn fields_are_read()
    ensures { FieldsAreRead }
{}

/// Each spelling of a header is read, and what is read is spelled so. The first 24 bytes tell the head.
pub fn heads_are_read()
    ensures { HeadsAreRead }
{}

/// A text is cut into boxes in at most one way. Read from its front, it gives these boxes, or its
/// first fault in file order.
pub fn boxes_are_read()
    ensures { BoxesAreRead }
{}

/// Each box of a container is whole on its own, and whole boxes one after another are a container.
pub fn boxes_are_whole()
    ensures { BoxesAreWhole }
{}

/// Boxes that are written one after another are read as just these boxes.
pub fn parts_are_read()
    ensures { PartsAreRead }
{}

/// What is left to be pushed may be cut into other pieces of the same text.
pub fn pieces_may_be_cut()
    ensures { PiecesMayBeCut }
{}
