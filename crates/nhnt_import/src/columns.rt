//! The columns of the units that are read.

ghost use Rattle.std.specs.Prelude.{◌≡◌, ◌+◌, ◌-ℤ◌, ◌<◌, ◌≤◌, ℕ, [], pos, length, OnOk};
ghost use Rattle.mp_columns.specs.declared.columns.TheConstants.{MOST_ITEMS};
ghost use Rattle.nhnt_import.specs.Kept.{closed, columns_so_far, kept_delta, kept_offset, last_delta, with_unit};

use crate::unit::AccessUnit;
use mp_columns::{Col, Column};
use mp_pieces::Piece;
use mp_ports::NoMemory;
use std::alloc::Global;
use std::marker::Model;

/// A number that is neither a duration nor an offset that a movie keeps.
const TOO_GREAT: u64 = 1 << 32;

/// A column for each number that is kept of the units, and where their bytes stand.
#[derive(Drop)]
pub(crate) struct Columns {
    pub(crate) deltas: Col,
    pub(crate) offsets: Col,
    pub(crate) syncs: Col,
    pub(crate) sizes: Col,
    pub(crate) pieces: Vec<Piece>,
}

impl Model for Columns {
    ghost use Rattle.nhnt_import.specs.Kept.{UnitColumns};

    ghost Value = { UnitColumns };

    ghost view = { λ c. record {
      deltas = c.deltas;
      offsets = c.offsets;
      syncs = c.syncs;
      sizes = c.sizes;
      pieces = c.pieces.items;
    } };
}

/// A duration as it is kept: one that is too great, as another one.
fn kept_delta(duration: u64) -> i64
    ensures { result ≡ kept_delta duration }
{
    duration.min(TOO_GREAT) as i64
}

/// How much later than decoded a unit is composed, as it is kept: where 32 bits hold it neither without
/// nor with a sign, as another such number.
#[tactic(auto, unfolding(crate::specs::Kept::kept_offset))]
fn kept_offset(composition: u64, decode: u64) -> i64
    ensures { result ≡ kept_offset (pos composition -ℤ pos decode) }
{
    if composition >= decode {
        (composition - decode).min(TOO_GREAT) as i64
    } else if decode - composition <= 1 << 31 {
        -((decode - composition) as i64)
    } else {
        TOO_GREAT as i64
    }
}

impl Columns {
    /// Those of no units.
    #[tactic(auto, unfolding(crate::specs::Kept::columns_so_far))]
    pub(crate) fn new(alloc: Global) -> Self
        ensures { (file : ℕ) → result ≡ columns_so_far file [] }
    {
        Columns {
            deltas: Col::new(alloc),
            offsets: Col::new(alloc),
            syncs: Col::new(alloc),
            sizes: Col::new(alloc),
            pieces: Vec::new(alloc),
        }
    }

    /// A unit of that file follows, behind one that is decoded at `before`.
    pub(crate) fn push(&mut self, before: u64, unit: &AccessUnit, file: u32) -> Result<(), NoMemory>
        requires order { before ≤ unit.now.decode }
        requires deltas { length self.old.deltas + 1 ≤ MOST_ITEMS }
        requires offsets { length self.old.offsets + 1 ≤ MOST_ITEMS }
        requires syncs { length self.old.syncs + 1 ≤ MOST_ITEMS }
        requires sizes { length self.old.sizes + 1 ≤ MOST_ITEMS }
        ensures { OnOk result (self.new ≡ with_unit file self.old before unit.now) }
    {
        self.deltas.push(kept_delta(unit.decode - before))?;
        self.offsets
            .push(kept_offset(unit.composition, unit.decode))?;
        self.syncs.push(i64::from(unit.is_sync()))?;
        self.sizes.push(i64::from(unit.len))?;
        self.pieces.push(Piece {
            file,
            from: unit.from,
            len: unit.len,
            prefix: None,
        })?;
        Ok(())
    }
}

/// The durations of units, by how much later each is decoded than the one before it: what the first has is
/// dropped, and the last lasts as long as the one before it, or 0 where it is alone.
#[tactic(auto, unfolding(crate::specs::Kept::closed))]
pub(crate) fn close(deltas: &mut Col) -> Result<(), NoMemory>
    ensures { OnOk result (deltas.new ≡ closed deltas.old) }
{
    let count = deltas.len();
    if count == 0 {
        return Ok(());
    }
    let last = last_of(deltas, count);
    deltas.keep_range(1, count);
    deltas.push(last)
}

/// The last of so many items, or 0 where it is the only one.
fn last_of(deltas: &Col, count: u32) -> i64
    requires count { count ≡ length deltas.now }
    requires some { 0 < count }
    ensures { result ≡ last_delta deltas.now }
{
    if count == 1 { 0 } else { deltas.at(count - 1) }
}
