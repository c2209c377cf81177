//! Laws of the tables: calls that do nothing, whose contracts are the laws.

ghost use Rattle.mp_chunks.specs.Samples.{TablesGiveSamples};
ghost use Rattle.mp_chunks.specs.Written.{PlacesAreRead, PlacesChangeNoLength};

use mp_boxes::tables_are_read;

/// Tables give a sample for each size, of that size, and where they have no fault it is of one of the entries.
pub fn tables_give_samples()
    ensures { TablesGiveSamples }
{}

/// The tables of chunks that can be written have no fault, and what is read of them are the chunks' samples.
pub fn places_are_read()
    ensures { PlacesAreRead }
{
    tables_are_read();
}

/// Where chunks stand changes no row of `stsc`, and no length of a table.
pub fn places_change_no_length()
    ensures { PlacesChangeNoLength }
{
    tables_are_read();
}
