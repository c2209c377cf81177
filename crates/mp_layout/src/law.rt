//! The law of the format, and a file by hand: calls that do nothing, whose contracts are the laws.

ghost use Rattle.std.specs.Prelude.{◌≡◌, Some};
ghost use Rattle.mp_movie.specs.Present.{present};
ghost use Rattle.mp_layout.specs.Example.{example_file, example_movie};
ghost use Rattle.mp_layout.specs.File.{file_bytes};
ghost use Rattle.mp_layout.specs.Law.{FilesPresentMovies};

use mp_boxes::{boxes_are_read, boxes_have_lengths, heads_are_read, parts_are_read};
use mp_chunks::{places_are_read, places_change_no_length};
use mp_edits::edits_are_read;
use mp_entries::{descriptions_are_read, references_are_read};
use mp_headers::headers_are_read;
use mp_interleave::samples_stand_in_chunks;
use mp_movie::same_movie_is_presented;
use mp_times::tables_are_read;

/// The file of a movie presents exactly the movie, and so the same movie, and none of its checks fails:
/// for each well-formed movie within the limits, and its samples in windows of any length.
pub fn file_presents_movie()
    ensures { FilesPresentMovies }
{
    boxes_are_read();
    heads_are_read();
    parts_are_read();
    boxes_have_lengths();
    headers_are_read();
    references_are_read();
    descriptions_are_read();
    tables_are_read();
    edits_are_read();
    places_are_read();
    places_change_no_length();
    same_movie_is_presented();
    samples_stand_in_chunks();
}

/// A file by hand, of two tracks in windows of a second, with edits, offsets below 0, sync marks, two entries
/// and user data: it is what is written of its movie, and it presents that movie.
pub fn file_by_hand_is_written_and_read()
    ensures written { file_bytes example_movie 1000 ≡ example_file }
    ensures read { present example_file ≡ Some example_movie }
{}
