// A sheet's bytes in; its tally or its first fault out. The lines of lot and card are read first, then, once the lot is opened, those
// of the results. Each line begins where the one before it ended, so that the loops go by that place and not by a count. With `map_err`
// and `?` for the fault of a line, in place of a `match`, the proof did not close.
#![tactic(auto)]

ghost use Rattle.std.specs.Prelude.{◌≡◌, ℕ};
ghost use Rattle.rules.specs.Reading.{read_of};
ghost use Rattle.rules.specs.declared.Stage.TheVariants as stage;
ghost use Rattle.tally.specs.Calls.{Sound};
ghost use Rattle.result_steps.specs.Promise.{opened_state};
ghost use Rattle.sheet.specs.Promise.{ReadAs, Starts, read_rest, HeadLinesAre, ResultLinesAre};

use head_steps::Progress;
use rules::{Card, Fault, Place, Refusal, Stage};
use tally::Tally;

// What a sheet is read as: its tally, and the number of its lines.
#[derive(Clone, Copy)]
pub struct Reading {
    pub tally: Tally,
    pub lines: usize,
}

// Where the results begin: what was read before, and the place and the number of the line with which they do.
#[derive(Clone, Copy)]
struct ResultsBegin {
    head: Progress,
    at: usize,
    line: usize,
}

// The lines of lot and card, from the start of the sheet on.
fn take_head(sheet: &[u8], card: &mut Card) -> Result<ResultsBegin, Fault>
    ensures { HeadLinesAre sheet.now card.old result card.new }
{
    let mut p = head_steps::start();
    let mut line: usize = 1;
    let mut at: usize = 0;
    while at < sheet.len() {
        let head_line = frames::line_at(sheet, at);
        match head_steps::head_step(p, card, head_line.frame) {
            Ok(Some(next)) => {
                p = next;
                line += 1;
                at = head_line.end + 1;
            }
            Ok(None) => return Ok(ResultsBegin { head: p, at, line }),
            Err(refusal) => {
                return Err(Fault {
                    refusal,
                    place: Place::Sheet(line),
                });
            }
        }
    }
    Err(Fault {
        refusal: Refusal::OutOfTurn,
        place: Place::Sheet(line),
    })
}

// The lines from `at` on, the first of which has this number, once the lot is opened; the number of lines.
fn take_results(sheet: &[u8], at: usize, line: usize, t: &mut Tally) -> Result<usize, Fault>
    requires { Starts sheet.now at line }
    ensures { (last : ℕ) → Sound t.old → ResultLinesAre (read_rest sheet.now at (opened_state last stage.Result t.old) line) result t.new }
{
    let mut stage = Stage::Result;
    let mut at = at;
    let mut line = line;
    while at < sheet.len() {
        let result_line = frames::line_at(sheet, at);
        match result_steps::result_step(stage, t, result_line.frame) {
            Ok(next) => {
                stage = next;
                line += 1;
                at = result_line.end + 1;
            }
            Err(refusal) => {
                return Err(Fault {
                    refusal,
                    place: Place::Sheet(line),
                });
            }
        }
    }
    if stages::is_ended(stage) {
        return Ok(line - 1);
    }
    Err(Fault {
        refusal: Refusal::OutOfTurn,
        place: Place::Sheet(line),
    })
}

// A sheet's tally, or its first fault. The lot is opened where the results begin.
pub fn read(sheet: &[u8]) -> Result<Reading, Fault>
    ensures { ReadAs (read_of sheet.now) result }
{
    let mut tally = tally::fresh();
    let begin = take_head(sheet, &mut tally.card)?;
    tally.lot = begin.head.lot;
    if let Err(refusal) = tally::check_open(tally.lot, tally.card) {
        return Err(Fault {
            refusal,
            place: Place::Sheet(begin.line),
        });
    }
    let lines = take_results(sheet, begin.at, begin.line, &mut tally)?;
    Ok(Reading { tally, lines })
}
