//! The records of an opened table, one after another, through a window.

ghost use Rattle.std.specs.Prelude.{◌≡◌, ◌≢◌, ◌+◌, ◌-◌, ◌*◌, ◌/◌, ◌<◌, ◌≤◌, ◌^◌, length, drop, true, None, Some, IfOk, IfErr, IfSome, OnOk, OnErr};
ghost use Rattle.mp_columns.specs.declared.columns.TheConstants.{MOST_ITEMS};
ghost use Rattle.mp_ports.specs.Folder.{FailsToRead, opened_at};
ghost use Rattle.mp_ports.specs.Gives.{read_refusal};
ghost use Rattle.mp_ports.specs.Reading.{OnlyReads};
ghost use Rattle.nhnt_import.specs.Fault.{IsPairRefusal, records_fault};
ghost use Rattle.nhnt_import.specs.Head.{head_len, is_wide};
ghost use Rattle.nhnt_import.specs.Kept.{AreRead};
ghost use Rattle.nhnt_import.specs.Unit.{record_count, record_len, unit_of};
ghost use Rattle.nhnt_import.specs.Window.{IsWindow};

use crate::columns::Columns;
use crate::head::HEAD_LEN;
use crate::unit::{AccessUnit, check_unit, record_len, unit_in};
use mp_columns::MOST_ITEMS;
use mp_pieces::Window;
use mp_ports::{Bad, Code, Folder, PortFault, ReadFail};
use std::alloc::Global;

/// How many whole records a table of so many bytes has.
///
/// `SampleLimit` where they are more than a movie keeps samples.
pub(crate) fn count_records(size: u64, wide: bool) -> Result<u32, Bad>
    requires { head_len ≤ size }
    ensures count { IfOk result (λ count. count ≡ (size - head_len) / record_len wide) }
    ensures few { IfOk result (λ count. count ≤ MOST_ITEMS) }
    ensures inside { IfOk result (λ count. head_len + count * record_len wide ≤ size) }
    ensures many { IfErr result (λ _. MOST_ITEMS < (size - head_len) / record_len wide) }
    ensures fault { IfErr result (λ bad. bad ≡ record { code = Code.SampleLimit; command = 0; file = 0; place = 0 }) }
{
    let count = (size - HEAD_LEN) / record_len(wide) as u64;
    if count > u64::from(MOST_ITEMS) {
        return Err(Bad::at(Code::SampleLimit, 0));
    }
    Ok(count as u32)
}

/// The record at a place of the opened table.
fn read_unit<F: Folder>(
    folder: &mut F,
    table: u32,
    window: &mut Window,
    at: u64,
    wide: bool,
) -> Result<AccessUnit, PortFault>
    requires window { IsWindow (F.state folder.old) table window.old }
    requires inside { at + record_len wide ≤ (opened_at (F.state folder.old) table).size }
    ensures unit { IfOk result (λ unit. IfSome (opened_at (F.state folder.old) table).bytes
        (λ bytes. unit ≡ unit_of wide (drop at bytes))) }
    ensures len { IfOk result (λ unit. unit.len < 2 ^ 24) }
    ensures window { OnOk result (IsWindow (F.state folder.new) table window.new) }
    ensures same { OnOk result (F.state folder.new ≡ F.state folder.old) }
    ensures failed { OnErr result (FailsToRead (F.state folder.old) (F.state folder.new)) }
{
    let len = record_len(wide);
    window.fill(folder, at, len)?;
    Ok(unit_in(window.held(at, len), wide))
}

/// The units of an opened table, in columns; their bytes aren't looked at.
///
/// `NhntUnit`, `NhntOrder`, `NhntRange` at the first record that isn't as the import needs it, `NhntCut`
/// where the table ends within a record.
pub(crate) fn read_units<F: Folder>(
    alloc: Global,
    folder: &mut F,
    table: u32,
    media: u32,
    window: Window,
    wide: bool,
    count: u32,
) -> Result<Columns, ReadFail>
    requires window { IsWindow (F.state folder.old) table window }
    requires media { media < length (F.state folder.old).opened }
    requires few { count ≤ MOST_ITEMS }
    requires inside { head_len + count * record_len wide ≤ (opened_at (F.state folder.old) table).size }
    requires told { IfSome (opened_at (F.state folder.old) table).bytes
        (λ bytes. (wide ≡ is_wide bytes) × (count ≡ record_count bytes)) }
    ensures read { IfOk result (AreRead (opened_at (F.state folder.old) table).bytes
        media (opened_at (F.state folder.old) media).size) }
    ensures fault { IfErr result (λ fail. IfSome (opened_at (F.state folder.old) table).bytes
        (λ bytes. IfSome (read_refusal fail)
        (λ bad. records_fault (opened_at (F.state folder.old) media).size bytes ≡ Some bad))) }
    ensures refusal { IfErr result (λ fail. IfSome (read_refusal fail) IsPairRefusal) }
    ensures folder { OnlyReads result (F.state folder.old) (F.state folder.new) }
{
    let size = folder.size(media);
    let mut window = window;
    let mut columns = Columns::new(alloc);
    let mut before = 0;
    let mut at = HEAD_LEN;
    let mut left = count;
    while left > 0 {
        let unit = read_unit(folder, table, &mut window, at, wide)?;
        check_unit(&unit, before, size, at)?;
        columns.push(before, &unit, media)?;
        before = unit.decode;
        at += record_len(wide) as u64;
        left -= 1;
    }
    check_end(at, folder.size(table))?;
    Ok(columns)
}

/// Tests that a table of so many bytes ends behind its whole records. `NhntCut` where it doesn't.
fn check_end(end: u64, size: u64) -> Result<(), Bad>
    ensures ends { IfOk result (λ _. end ≡ size) }
    ensures fault { IfErr result (λ bad. bad ≡ record { code = Code.NhntCut; command = 0; file = 0; place = end }) }
    ensures cut { IfErr result (λ _. end ≢ size) }
    ensures refusal { IfErr result IsPairRefusal }
{
    if end != size {
        return Err(Bad::at(Code::NhntCut, end));
    }
    Ok(())
}
