// Calls on a sheet: it is read, a call is made on its tally, and the sheet after the call is written. A refused call leaves the buffer
// as it was. The calls take sheet, list and buffer one by one, as the C interface lends them: the host library hands its own on.
#![tactic(auto)]

ghost use Rattle.std.specs.Prelude.{◌≡◌};
ghost use Rattle.rules.specs.OnSheets.{on_sheet_answer, enter_sheet, withdraw_sheet, enter_list_sheet};

use rules::Fault;

// One result more.
pub fn enter(sheet: &[u8], container: u32, x: u32, buf: &mut [u8]) -> Result<usize, Fault>
    ensures { on_sheet_answer result buf.new ≡ enter_sheet sheet.now container x buf.old }
{
    let mut tally = sheet::read(sheet)?.tally;
    tally.enter(narrowed::container(container), narrowed::result(x))?;
    Ok(writer::write(tally, buf)?)
}

// One result less.
pub fn withdraw(sheet: &[u8], container: u32, buf: &mut [u8]) -> Result<usize, Fault>
    ensures { on_sheet_answer result buf.new ≡ withdraw_sheet sheet.now container buf.old }
{
    let mut tally = sheet::read(sheet)?.tally;
    tally.withdraw(narrowed::container(container))?;
    Ok(writer::write(tally, buf)?)
}

// The results of a comma list more.
pub fn enter_list(sheet: &[u8], list: &[u8], buf: &mut [u8]) -> Result<usize, Fault>
    ensures { on_sheet_answer result buf.new ≡ enter_list_sheet sheet.now list.now buf.old }
{
    let mut tally = sheet::read(sheet)?.tally;
    list_reader::read_list(&mut tally, list)?;
    Ok(writer::write(tally, buf)?)
}
