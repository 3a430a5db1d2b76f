// What a sheet is told: all that lotreport prints for it.
#![tactic(auto)]

ghost use Rattle.std.specs.Prelude.{◌≡◌};
ghost use Rattle.rules.specs.Numbers.{text_answer};
ghost use Rattle.rules.specs.Printing.{print_on};

use rules::Refusal;

// What lotreport prints for a sheet: the report of its tally, or the line of its first fault. A sheet with too few results is
// refused at its last line, that of the 06 frame. A fault is printed as for a list (`sheet_list`): one line, which a function for both
// would not shorten.
#[tactic(auto, using(crate::proofs::Judging::judged_refused, crate::proofs::Judging::judged_text, crate::proofs::Judging::judged_few))]
pub fn judge(sheet: &[u8], buf: &mut [u8]) -> Result<usize, Refusal>
    ensures { text_answer result buf.new ≡ print_on sheet.now buf.old }
{
    match sheet::read(sheet) {
        Err(fault) => refusal_lines::print_refused(buf, fault.refusal, fault.place.line()),
        Ok(reading) => match report::report(reading.tally, buf) {
            Ok(size) => Ok(size),
            Err(Refusal::TooFew) => {
                refusal_lines::print_refused(buf, Refusal::TooFew, reading.lines)
            }
            Err(refusal) => Err(refusal),
        },
    }
}
