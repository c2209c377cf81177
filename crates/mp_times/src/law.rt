//! Laws of the tables: a call that does nothing, whose contract is the law.

ghost use Rattle.mp_times.specs.Law.{TimesAreRead};

/// What is read is what was written, in each table.
pub fn tables_are_read()
    ensures { TimesAreRead }
{
    mp_boxes::tables_are_read();
}
