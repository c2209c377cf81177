//! Laws of byte streams and of syntax tables: calls that do nothing, whose contracts are the laws.
ghost use Rattle.std.specs.Prelude.{ℕ, ℤ, Bool, List};
ghost use Rattle.avc_units.specs.Law.{AreReadInTurn, AreRead, AreSaidByFronts};
ghost use Rattle.avc_units.specs.Emulation.{IsCleanFront};
ghost use Rattle.avc_units.specs.Units.{HasUnitsOrFault};

/// A table that comes to an `A`, and one that comes to a `B`, are read one after the other.
pub fn tables_in_turn<A, B>()
    ensures { AreReadInTurn A B }
{}

/// Single elements and passed parts, and then a table that comes to a `B`, are read one after the other.
pub fn elements_in_turn<B>()
    ensures numbers { AreReadInTurn ℕ B }
    ensures flags { AreReadInTurn Bool B }
    ensures signed { AreReadInTurn ℤ B }
    ensures passed { AreReadInTurn (Unit {0}) B }
{}

/// What bits say of a table by what is written is what is read by it.
pub fn tables_are_read<A>()
    ensures { AreRead A }
{}

/// What a front of some bits says, all of them say, but for a syntax that fails.
pub fn fronts_suffice<A>()
    ensures { AreSaidByFronts A }
{}

/// The clean bytes of a front of a unit are a front of its clean bytes.
pub fn fronts_are_cleaned()
    ensures { (front rest : List ℕ) → IsCleanFront front rest }
{}

/// A file has one list of units, or one place of a fault, and never both.
pub fn units_or_fault()
    ensures { (file : List ℕ) → HasUnitsOrFault file }
{}
