//! Laws of the tables: calls that do nothing, whose contracts are the laws.

ghost use Rattle.mp_read.specs.Law.{TablesAreParts, TablesFit, TablesHaveSizes, TablesStandForMovies};
ghost use Rattle.mp_read.specs.Read.{StretchesAreHeld};

use mp_boxes::{boxes_are_read, boxes_are_whole};
use mp_chunks::tables_give_samples;
use mp_entries::kept_are_entries;
use mp_movie::limits_are_of_tracks;

/// Where no check of a movie box fails, the parts by its tables stand for its movie, with the file's bytes.
pub fn tables_stand_for_movies()
    ensures { TablesStandForMovies }
{
    tables_give_samples();
}

/// Where no check of a movie box fails, the parts by its tables are well formed, and can be made.
pub fn tables_are_parts()
    ensures parts { TablesAreParts }
    ensures sizes { TablesHaveSizes }
{
    boxes_are_read();
    boxes_are_whole();
    kept_are_entries();
    tables_give_samples();
}

/// Where no check of a movie box fails, the parts by its tables pass no limit.
pub fn tables_fit()
    ensures { TablesFit }
{
    tables_give_samples();
    kept_are_entries();
    limits_are_of_tracks();
}

/// Opened files hold a movie that lies in one of them.
pub fn stretches_are_held()
    ensures { StretchesAreHeld }
{}
