//! The matrix of a movie and of its tracks.

ghost use Rattle.std.specs.Prelude.{Some};
ghost use Rattle.mp_ports.specs.Gives.{Gives};
ghost use Rattle.mp_boxes.specs.Reading.{next_bytes};
ghost use Rattle.mp_headers.specs.Matrix.{matrix_len};

use mp_boxes::next_bytes;
use mp_ports::Code;

/// The length of a matrix.
pub const MATRIX_LEN: usize = 36;

/// The next matrix, and what is behind it. `TableLength` where too few bytes are left.
pub fn next_matrix(text: &[u8]) -> Result<([u8; MATRIX_LEN], &[u8]), Code>
    ensures { Gives Some (λ next. (next.0, next.1.now)) result (next_bytes matrix_len text.now) }
{
    let (bytes, rest) = next_bytes(text, MATRIX_LEN)?;
    let mut matrix = [0; MATRIX_LEN];
    matrix.copy_from_slice(bytes);
    Ok((matrix, rest))
}
