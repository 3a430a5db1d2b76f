// lotlist: reads a sheet from standard input and prints its results as a comma list, or the line of its first fault.
#![tactic(auto)]

ghost use Rattle.std.specs.Prelude.{List, ℕ};
ghost use Rattle.rules.specs.Printing.{listed_for};
ghost use Rattle.buffers.specs.Counts.{IsPrefixLen};
ghost use Rattle.decimal.specs.Laying.{Laid};
ghost use Rattle.program_input.specs.Input.{BeginsWith, IsSheetOf};

use program_input::SHEET;
use std::io;

// Places for the text: none that is printed is longer.
const TEXT: usize = 4096;

// `answer` and `main` are those of lotreport but for the call and the places. One `answer` for both, over a trait, would ask of each
// program a type, an impl with the call and the text, and the law of its greatest length, in place of a line around its own promise: no
// plainer.

// The text to every input of which this is the sheet, and its length.
fn text_to(sheet: &[u8], text: &mut [u8; TEXT]) -> usize
    ensures by_index { (input : List ℕ) → IsSheetOf input sheet.now → Laid (listed_for input) text.old text.new result }
    ensures prefix_len { IsPrefixLen result text.new }
{
    sheet_list::print(sheet, text).unwrap_or(0)
}

// The text to every input that begins with the first `read` bytes of the buffer, and its length. The part that was read is cut here, and
// not in `main`, whose reads and writes no contract speaks of.
fn answer(buffer: &[u8; SHEET], read: usize, text: &mut [u8; TEXT]) -> usize
    ensures by_index { (input : List ℕ) → BeginsWith input buffer.now read → Laid (listed_for input) text.old text.new result }
    ensures prefix_len { IsPrefixLen result text.new }
{
    text_to(program_input::sheet_of(buffer, read), text)
}

fn main(rt: HostRuntime) -> io::Result<()> {
    let mut sheet = [0u8; SHEET];
    let mut text = [0u8; TEXT];
    let read = buffers::read_full(&mut rt.stdin(), &mut sheet)?;
    let size = answer(&sheet, read, &mut text);
    rt.write_all(&text[..size])
}
