// The line of a refusal: REFUSED, its number, and where the fault stands. Each goes into a buffer where it fits. A cast with `as` keeps
// every bit of what it is given.
#![tactic(auto)]

ghost use Rattle.std.specs.Prelude.{◌≡◌, ◌≤◌, sum_by, length};
ghost use Rattle.rules.specs.Numbers.{number_of, text_answer};
ghost use Rattle.rules.specs.Text.{laid_in};
ghost use Rattle.rules.specs.Printing.{refused_line, fault_line};
ghost use Rattle.decimal.specs.Laying.{LaysLine};
ghost use Rattle.refusal_lines.specs.Numbered.{spaced_length, numbers_line};

use rules::Refusal;

// How long a number with the space before it is.
#[tactic(auto, using(rules::proofs::TextLaws::length_decimal))]
fn spaced_width(n: u64) -> usize
    ensures { (result ≡ spaced_length n) × (result ≤ 21) }
{
    decimal::width(n) + 1
}

fn spaced_widths(numbers: &[u64]) -> usize
    requires { length numbers.now ≤ 3 }
    ensures { result ≡ sum_by spaced_length numbers.now }
{
    numbers.iter().map(|n| spaced_width(*n)).sum()
}

// REFUSED 8 6
fn numbers_line(buf: &mut [u8], numbers: &[u64]) -> usize
    ensures { LaysLine (numbers_line numbers.now) buf.old buf.new result }
{
    let mut at = decimal::bytes(buf, 0, b"REFUSED");
    for n in numbers {
        at = decimal::bytes(buf, at, b" ");
        at = decimal::number(buf, at, *n);
    }
    decimal::bytes(buf, at, b"\n")
}

// The line with these numbers, where it fits.
fn print_numbers(buf: &mut [u8], numbers: &[u64]) -> Result<usize, Refusal>
    requires { length numbers.now ≤ 3 }
    ensures { text_answer result buf.new ≡ laid_in (numbers_line numbers.now) buf.old }
{
    let size = 8 + spaced_widths(numbers);
    if buf.len() < size {
        return Err(Refusal::BufferShort);
    }
    Ok(numbers_line(buf, numbers))
}

// A sheet's fault: its number and its sheet line.
#[tactic(auto, unfolding(rules::specs::Printing::refused_line, crate::specs::Numbered::numbers_line))]
pub fn print_refused(buf: &mut [u8], e: Refusal, line: usize) -> Result<usize, Refusal>
    ensures { text_answer result buf.new ≡ laid_in (refused_line (number_of e) line) buf.old }
{
    print_numbers(buf, &[u64::from(e.number()), line as u64])
}

// A fault in one of two files: its number, its file and the line there. File and line are any numbers, as they are printed: a `Place` is a
// narrower type, and would ask more of callers.
#[tactic(auto, unfolding(rules::specs::Printing::fault_line, crate::specs::Numbered::numbers_line))]
pub fn print_fault(buf: &mut [u8], e: Refusal, file: u32, line: usize) -> Result<usize, Refusal>
    ensures { text_answer result buf.new ≡ laid_in (fault_line (number_of e) file line) buf.old }
{
    print_numbers(buf, &[u64::from(e.number()), u64::from(file), line as u64])
}
