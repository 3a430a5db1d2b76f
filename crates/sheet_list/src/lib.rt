// The results of a sheet as a comma list.
#![tactic(auto)]

ghost use Rattle.std.specs.Prelude.{◌≡◌, ◌≤◌, length};
ghost use Rattle.rules.specs.Numbers.{text_answer};
ghost use Rattle.rules.specs.Text.{laid_in};
ghost use Rattle.rules.specs.Printing.{listed_for};
ghost use Rattle.reading_theorems.specs.Lengths.{longest_list};

use rules::Refusal;

// The list of a sheet's results, or the line of its first fault, and its length. None is longer than the longest list.
pub fn print(sheet: &[u8], buf: &mut [u8]) -> Result<usize, Refusal>
    ensures text { text_answer result buf.new ≡ laid_in (listed_for sheet.now) buf.old }
    ensures most { length (listed_for sheet.now) ≤ longest_list }
{
    match sheet::read(sheet) {
        Err(fault) => refusal_lines::print_refused(buf, fault.refusal, fault.place.line()),
        Ok(reading) => list_writer::write_list(reading.tally, buf),
    }
}
