//! The boxes of a sample table (ISO/IEC 14496-12, 8.5.1).

ghost use Rattle.std.specs.Prelude.{IfOk, Some};
ghost use Rattle.mp_ports.specs.Checks.{unless};
ghost use Rattle.mp_ports.specs.Gives.{Gives};
ghost use Rattle.mp_movie.specs.Tracks.{tables_fault};
ghost use Rattle.mp_read.specs.Part.{IsPart, part_of};
ghost use Rattle.mp_read.specs.Table.{AreParts, boxes_at, table_boxes};

use crate::moov::Moov;
use mp_boxes::ChildBox;
use mp_chunks::Tables;
use mp_ports::Bad;

/// The boxes of a sample table that are read; `sizes` is `stsz` or `stz2`, and `places` is `stco` or `co64`.
#[derive(Clone, Copy)]
pub struct TableParts {
    pub stsd: ChildBox,
    pub stts: ChildBox,
    pub ctts: Option<ChildBox>,
    pub stss: Option<ChildBox>,
    pub stsc: ChildBox,
    pub sizes: ChildBox,
    pub places: ChildBox,
}

impl TableParts {
    ghost use Rattle.std.specs.Prelude.{◌≡◌};
    ghost use Rattle.mp_read.specs.Table.{tables_at};

    /// Those that say how long the samples are and where they lie.
    pub fn tables<'a>(&self, moov: &Moov<'a>) -> Tables<'a>
        ensures { result ≡ tables_at moov.now self.now }
    {
        Tables {
            moov: moov.bytes,
            stsc: self.stsc.span,
            sizes: self.sizes.span,
            compact: self.sizes.kind == *b"stz2",
            offsets: self.places.span,
            wide: self.places.kind == *b"co64",
        }
    }
}

/// The boxes in the box `stbl`.
///
/// `BoxCut` and `BoxSize`; then, box by box, `BoxMissing` at the end of `stbl`, `BoxTwice` at the second.
#[tactic(auto, unfolding(mp_movie::specs::Tracks::tables_fault))]
pub fn find_tables(moov: &Moov<'_>, stbl: ChildBox) -> Result<TableParts, Bad>
    requires { IsPart moov.now stbl }
    ensures boxes { let table = part_of moov.now stbl in
        Gives Some (boxes_at moov.now) result (unless (tables_fault table) (table_boxes table)) }
    ensures parts { IfOk result (AreParts moov.now) }
{
    moov.check_boxes(stbl)?;
    let stsd = moov.one(stbl, *b"stsd")?;
    let stts = moov.one(stbl, *b"stts")?;
    let stsc = moov.one(stbl, *b"stsc")?;
    let sizes = moov.one_of_two(stbl, *b"stsz", *b"stz2")?;
    let places = moov.one_of_two(stbl, *b"stco", *b"co64")?;
    let ctts = moov.at_most_one(stbl, *b"ctts")?;
    let stss = moov.at_most_one(stbl, *b"stss")?;
    Ok(TableParts {
        stsd,
        stts,
        ctts,
        stss,
        stsc,
        sizes,
        places,
    })
}
