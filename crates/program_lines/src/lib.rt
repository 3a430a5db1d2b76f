// The line that lotsampling, lottolerance and lotmixing print for what they say. What is right is said in specs/Lines.antt.
#![tactic(auto)]

ghost use Rattle.std.specs.Prelude.{◌++◌, ◌≤◌, length};
ghost use Rattle.rules.specs.Text.{decimal};
ghost use Rattle.decimal.specs.Laying.{LaysAt};
ghost use Rattle.program_words.specs.Saying.{in_place_of_value, number_said, test_said};
ghost use Rattle.program_lines.specs.Lines.{ended, line_of, yes_or_no};

use program_words::Unsaid;

// Places for a line.
pub const LINE: usize = 128;

// Each line goes to the front of a buffer, and its length is answered; where it does not fit, nothing is written and 0 is answered.
// No `Result`: the buffers of the programs have room for every line that they print.
fn text_line(buf: &mut [u8], text: &[u8]) -> usize
    ensures { LaysAt (ended text.now) 0 buf.old buf.new result }
{
    if buf.len() <= text.len() {
        return 0;
    }
    let behind = decimal::bytes(buf, 0, text);
    decimal::bytes(buf, behind, b"\n")
}

// A number behind a text.
fn numbered_line(buf: &mut [u8], text: &[u8], n: u64) -> usize
    requires { length text.now ≤ 8 }
    ensures { LaysAt (ended (text.now ++ decimal n)) 0 buf.old buf.new result }
{
    if buf.len() < text.len() + decimal::width(n) + 1 {
        return 0;
    }
    let digits = decimal::bytes(buf, 0, text);
    let end = decimal::number(buf, digits, n);
    decimal::bytes(buf, end, b"\n")
}

// How the program is used, or REFUSED 17.
fn line_without_value(unsaid: Unsaid, usage: &[u8], buf: &mut [u8]) -> usize
    ensures { LaysAt (line_of usage.now decimal (in_place_of_value unsaid)) 0 buf.old buf.new result }
{
    match unsaid {
        Unsaid::Usage => text_line(buf, usage),
        Unsaid::Refused(refusal) => numbered_line(buf, b"REFUSED ", u64::from(refusal.number())),
    }
}

// The line of what is said, a value as a number.
pub fn number_line(said: Result<u32, Unsaid>, usage: &[u8], buf: &mut [u8]) -> usize
    ensures { LaysAt (line_of usage.now decimal (number_said said)) 0 buf.old buf.new result }
{
    match said {
        Ok(n) => numbered_line(buf, b"", u64::from(n)),
        Err(unsaid) => line_without_value(unsaid, usage, buf),
    }
}

// The line of what is said, true and false as words.
pub fn verdict_line(
    said: Result<bool, Unsaid>,
    usage: &[u8],
    yes: &[u8],
    no: &[u8],
    buf: &mut [u8],
) -> usize
    ensures { LaysAt (line_of usage.now (yes_or_no yes.now no.now) (test_said said)) 0 buf.old buf.new result }
{
    match said {
        Ok(true) => text_line(buf, yes),
        Ok(false) => text_line(buf, no),
        Err(unsaid) => line_without_value(unsaid, usage, buf),
    }
}
