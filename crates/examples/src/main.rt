// The test program: sheets of published examples, of the cases that mislead, and of the vectors; and the vectors' comma lists, entered in
// a sheet and written of one. One line for each group, and a total.
#![tactic(auto)]

mod cases;
mod files;
mod printed;

use cases::{comes_out, is_text};
use files::Case;
use program_input::SHEET;
use std::rt::Files;
use std::{fmt, io};

// How many cases there were, and how many came out as they should.
#[derive(Clone, Copy)]
struct Tried {
    right: usize,
    all: usize,
}

impl Tried {
    fn with(self, other: Tried) -> Tried {
        Tried {
            right: self.right.saturating_add(other.right),
            all: self.all.saturating_add(other.all),
        }
    }
}

impl fmt::Display for Tried {
    fn fmt<W: fmt::Write>(&self, f: &mut fmt::Formatter<W>) -> fmt::Result {
        write!(f, "{} of {}", self.right, self.all)
    }
}

// The cases of a group, whose files begin with its letter.
fn group<F: Fn(Case) -> bool>(letter: char, count: usize, is_right: F) -> Tried
    requires { F.IsAlwaysCallable is_right }
{
    let case = |number| Case {
        group: letter,
        number,
    };
    Tried {
        right: (0..count).filter(|n| is_right(case(*n))).count(),
        all: count,
    }
}

// Whether the sheet of a case is judged as its text says: all of it, and as much as lotreport reads.
fn is_judged(rt: &impl Files, case: Case) -> bool {
    let mut places = buffers::zeroed::<65536>();
    comes_out(rt, case, &mut places, |sheet, text, buf| {
        is_text(judge::judge(sheet, buf), buf, text)
            & is_text(printed::front_judged(sheet, buf), buf, text)
    })
}

// Whether the list of a case is entered in its sheet as its text says.
fn is_entered(rt: &impl Files, case: Case) -> bool {
    let mut list = buffers::zeroed::<4096>();
    let l = case.read(rt, ".list", &mut list);
    let mut places = buffers::zeroed::<SHEET>();
    comes_out(rt, case, &mut places, |sheet, text, buf| {
        is_text(printed::entered(sheet, &list[..l], buf), buf, text)
    })
}

// Whether the results of the sheet of a case are written as its text says.
fn is_written(rt: &impl Files, case: Case) -> bool {
    let mut places = buffers::zeroed::<SHEET>();
    comes_out(rt, case, &mut places, |sheet, text, buf| {
        is_text(sheet_list::print(sheet, buf), buf, text)
    })
}

fn main(rt: HostRuntime) -> io::Result<()> {
    let handbook = group('h', 4, |case| is_judged(&rt, case));
    println!(rt; "sheets of the handbook (002, 10.2): {handbook}")?;
    let misleading = group('m', 9, |case| is_judged(&rt, case));
    println!(rt; "sheets that mislead: {misleading}")?;
    let vectors = group('v', 220, |case| is_judged(&rt, case));
    println!(rt; "sheets of the vectors: {vectors}")?;
    let entered = group('e', 120, |case| is_entered(&rt, case));
    println!(rt; "lists of the vectors entered: {entered}")?;
    let written = group('l', 40, |case| is_written(&rt, case));
    println!(rt; "lists of the vectors written: {written}")?;
    let lists = entered.with(written);
    let all = handbook.with(misleading).with(vectors).with(lists);
    println!(rt; "all: {all}")
}
