// A comma list read into a tally: the enters of its lines one after another. Where a line is refused, none is entered.
#![tactic(auto)]

ghost use Rattle.list_reader.specs.Promise.{EntersEntry, Takes, Lists};

use list_lines::Entry;
use rules::{Attribute, Fault, Place, Refusal};
use tally::Tally;

// One line.
fn enter_entry(t: &mut Tally, entry: Option<Entry>) -> Result<(), Refusal>
    ensures { EntersEntry t.old entry result t.new }
{
    let Entry { container, x } = entry.ok_or(Refusal::BadListLine)?;
    t.enter(container, x)
}

// The lines one after another, up to the first that is refused. Each begins where the one before it ended, so that the loop goes by that
// place and not by a count. With `map_err` and `?` for the fault of a line the proof did not close.
#[tactic(auto, using(crate::proofs::Entering::reached_start, crate::proofs::Entering::taken_all))]
fn take_lines(t: &mut Tally, list: &[u8]) -> Result<(), Fault>
    ensures { Takes t.old list.now result t.new }
{
    let mut line: usize = 1;
    let mut at: usize = 0;
    while at < list.len() {
        let l = list_lines::line_at(Attribute::from(t.lot.attribute), list, at);
        if list.len() <= l.end {
            return Err(Fault {
                refusal: Refusal::BadListLine,
                place: Place::List(line),
            });
        }
        if let Err(refusal) = enter_entry(t, l.entry) {
            return Err(Fault {
                refusal,
                place: Place::List(line),
            });
        }
        line += 1;
        at = l.end + 1;
    }
    Ok(())
}

// A list read into a tally, or the fault of its first faulty line, counted from 1.
pub fn read_list(t: &mut Tally, list: &[u8]) -> Result<(), Fault>
    ensures { Lists t.old list.now result t.new }
{
    let before = *t;
    let answer = take_lines(t, list);
    if answer.is_err() {
        *t = before;
    }
    answer
}
