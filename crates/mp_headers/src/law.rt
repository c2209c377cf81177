//! The law of the header boxes: a call that does nothing, whose contract is the law.

ghost use Rattle.mp_headers.specs.Laws.{HeadersAreRead};

use mp_boxes::fields_are_read;

/// The fields that are read are those that were written, in both versions.
pub fn headers_are_read()
    ensures { HeadersAreRead }
{
    fields_are_read();
}
