// lotenter SHEET LIST: reads a sheet and a comma list from the files of these names and prints the sheet with the list entered, or the
// line of the first fault, with its file (1 the sheet, 2 the list). A file that cannot be read, or is not named, counts as empty.
#![tactic(auto)]

ghost use Rattle.std.specs.Prelude.{◌≡◌, List, ℕ, ◌≤◌, length, take};
ghost use Rattle.rules.specs.Limits.{list_places};
ghost use Rattle.rules.specs.Printing.{ended_bytes, enter_prints};
ghost use Rattle.buffers.specs.Counts.{IsPrefixLen};
ghost use Rattle.program_input.specs.Input.{BeginsWith, IsSheetOf};
ghost use Rattle.lotenter.specs.Entering.{entered_part, ShowsEntered};

use program_input::SHEET;
use program_words::WORD;
use std::io;
use std::rt::{Env, Files};

// Places for the list: of one that fills them the lines that end among them are entered.
const LIST: usize = 65536;

// Places for the text: none that is printed is longer.
const TEXT: usize = 8192;

// How many bytes the lines take that have their end byte.
fn ended_bytes(list: &[u8]) -> usize
    ensures { (result ≡ ended_bytes list.now) × (result ≤ length list.now) }
{
    let behind = list.iter().rev().take_while(|byte| **byte != b'\n').count();
    list.len() - behind
}

// What is entered of a list of which these bytes were read.
fn lines_of(read: &[u8]) -> &[u8]
    ensures { result.now ≡ entered_part read.now }
{
    if read.len() < LIST {
        return read;
    }
    &read[..ended_bytes(read)]
}

// The text for a sheet and these lines of a list. `whole`: they are all of it. A flag: an `Option` would have to hold the lines both where
// they are all of it and where they are not.
fn enter_lines(sheet: &[u8], lines: &[u8], whole: bool, text: &mut [u8]) -> usize
    ensures { ShowsEntered sheet.now lines.now whole text.old text.new result }
{
    match sheet_calls::enter_list(sheet, lines, text) {
        Ok(size) if whole => size,
        Ok(_) => decimal::bytes(text, 0, b"usage: lotenter SHEET LIST\n"),
        Err(fault) => {
            let (file, line) = (fault.place.file(), fault.place.line());
            refusal_lines::print_fault(text, fault.refusal, file, line).unwrap_or(0)
        }
    }
}

// The text to every sheet and every list of which these bytes were read: as many of the first as there are places for, or all.
fn text_to(sheet: &[u8], list: &[u8], text: &mut [u8; TEXT]) -> usize
    ensures by_index { (s l : List ℕ) → IsSheetOf s sheet.now → list.now ≡ take list_places l → take result text.new ≡ enter_prints s l }
    ensures prefix_len { IsPrefixLen result text.new }
{
    enter_lines(sheet, lines_of(list), list.len() < LIST, text)
}

// The text to every sheet and every list that begin with the bytes that were read of them, the first `m` and the first `n` of the
// buffers, and its length. The buffers are cut here, and not in `main`, whose reads and writes no contract speaks of.
fn answer(
    sheet: &[u8; SHEET],
    m: usize,
    list: &[u8; LIST],
    n: usize,
    text: &mut [u8; TEXT],
) -> usize
    ensures by_index { (s l : List ℕ) → BeginsWith s sheet.now m → BeginsWith l list.now n → take result text.new ≡ enter_prints s l }
    ensures prefix_len { IsPrefixLen result text.new }
{
    let lines = program_input::front(list, n);
    text_to(program_input::sheet_of(sheet, m), lines, text)
}

// The bytes of the file that the word with this place names, as many as fit; none where it is not named or cannot be read.
fn read_file(rt: &(impl Env + Files), place: usize, into: &mut [u8]) -> usize
    ensures { IsPrefixLen result into.new }
{
    let mut name = buffers::zeroed::<WORD>();
    let n = buffers::word(rt, place, &mut name);
    buffers::read_file(rt, &name[..n], into)
}

fn main(rt: HostRuntime) -> io::Result<()> {
    let mut sheet: [u8; SHEET] = buffers::zeroed();
    let mut list: [u8; LIST] = buffers::zeroed();
    let mut text: [u8; TEXT] = buffers::zeroed();
    let m = read_file(&rt, 1, &mut sheet);
    let n = read_file(&rt, 2, &mut list);
    let size = answer(&sheet, m, &list, n, &mut text);
    rt.write_all(&text[..size])
}
