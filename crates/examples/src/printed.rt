// What is printed for a sheet and a comma list, where that is no call of a crate.
use program_input::SHEET;
use rules::Refusal;

// What lotreport prints, which reads no more of a sheet.
pub fn front_judged(sheet: &[u8], buf: &mut [u8]) -> Result<usize, Refusal> {
    judge::judge(&sheet[..sheet.len().min(SHEET)], buf)
}

// The sheet with a list entered, or the line of the first fault: what lotenter prints. A call that lays the line for both would only
// promise what `print_fault` does.
pub fn entered(sheet: &[u8], list: &[u8], buf: &mut [u8]) -> Result<usize, Refusal> {
    sheet_calls::enter_list(sheet, list, buf).or_else(|fault| {
        let (file, line) = (fault.place.file(), fault.place.line());
        refusal_lines::print_fault(buf, fault.refusal, file, line)
    })
}
