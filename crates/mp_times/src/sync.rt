//! Sync samples: their numbers, in order.

ghost use Rattle.std.specs.Prelude.{◌≤◌};
ghost use Rattle.mp_ports.specs.Checks.{placed};
ghost use Rattle.mp_ports.specs.Gives.{Gives, refusal};
ghost use Rattle.mp_columns.specs.declared.columns.TheConstants.{MOST_ITEMS};
ghost use Rattle.mp_times.specs.Sync.{stss_of};

use mp_boxes::{FIRST_ROW, row_count, u32_in};
use mp_columns::Column;
use mp_ports::{Bad, Code, Fail};
use std::alloc::Global;

/// The greatest version of `stss`.
const STSS_VERSION: u32 = 0;

/// The length of a row: the number of a sync sample.
pub const NUMBER_LEN: usize = 4;

/// 1 for each sample whose number stands in the body of the box `stss` at `base`, 0 for every other of
/// so many samples (ISO/IEC 14496-12, 8.6.2).
///
/// `TableLength` where it has no version and flags, `BoxVersion` where the version isn't 0,
/// `TableLength` where it is shorter than its numbers, `SyncOrder` where they don't rise strictly or
/// one isn't in 1 to the number of samples.
pub fn read_stss<C: Column>(alloc: Global, body: &[u8], base: u64, samples: u32) -> Result<C, Fail>
    requires { samples ≤ MOST_ITEMS }
    ensures { Gives refusal (λ column. C.items column) result (placed base (stss_of samples body.now)) }
{
    let rows = row_count(body, STSS_VERSION, NUMBER_LEN, base)?;
    let mut marks = C::new(alloc);
    for i in 0..rows as usize {
        let number = u32_in(body, FIRST_ROW + NUMBER_LEN * i);
        let marked = marks.len();
        if number <= marked || number > samples {
            return Err(Bad::at(Code::SyncOrder, base).into());
        }
        marks.push_copies(0, number - 1 - marked)?;
        marks.push(1)?;
    }
    let marked = marks.len();
    marks.push_copies(0, samples - marked)?;
    Ok(marks)
}
