// The calls on a tally that is lent.
use crate::lines::{self, CallLine, MOST_NUMBERS};
use crate::print;
// A number as 16 bits: a larger one is handed on as the largest, as a result is.
use narrowed::result as narrow;
use rules::{CRITICALS, Card, Head, Lot, MOST_ROWS, Pans, Refusal};
use std::io;
use tally::Tally;

// One critical value, at the place for N = n.
fn criticals(n: u32, value: u32) -> [u32; CRITICALS] {
    let mut critical = [0; CRITICALS];
    if let Some(place) = critical.get_mut(n as usize) {
        *place = value;
    }
    critical
}

// open TALLY ATTRIBUTE CONTAINERS F G n ROWS LOWEST HIGHEST BOUND TOLERATED N CRITICAL+1
pub fn open(t: &mut Tally, numbers: &[u32; MOST_NUMBERS]) -> Result<(), Refusal> {
    let [
        _,
        attribute,
        containers,
        factor,
        offset,
        seeds,
        rows,
        lowest,
        highest,
        bound,
        tolerated,
        n,
        value,
        ..
    ] = *numbers;
    let lot = Lot {
        attribute: narrow(attribute),
        containers: narrow(containers),
    };
    let card = Card {
        head: Head {
            factor: narrow(factor),
            offset: narrow(offset),
            seeds: narrow(seeds),
        },
        critical: criticals(n, value),
        rows: rows as usize,
        lowest: [narrow(lowest); MOST_ROWS],
        highest: [narrow(highest); MOST_ROWS],
        bound: [narrow(bound); MOST_ROWS],
        tolerated: [narrow(tolerated); MOST_ROWS],
    };
    t.open(lot, card)
}

// enter TALLY CONTAINER X
pub fn enter(t: &mut Tally, numbers: &[u32; MOST_NUMBERS]) -> Result<(), Refusal> {
    let [_, container, x, ..] = *numbers;
    t.enter(narrowed::container(container), narrowed::result(x))
}

// weigh TALLY CONTAINER STATUS COMPONENT REMAINDER
pub fn weigh(t: &mut Tally, numbers: &[u32; MOST_NUMBERS]) -> Result<(), Refusal> {
    let [_, container, status, component, remainder, ..] = *numbers;
    let pans = Pans {
        component: weights::float(component),
        remainder: weights::float(remainder),
    };
    t.weigh(narrowed::container(container), narrow(status), pans)
}

// withdraw TALLY CONTAINER
pub fn withdraw(t: &mut Tally, numbers: &[u32; MOST_NUMBERS]) -> Result<(), Refusal> {
    let [_, container, ..] = *numbers;
    t.withdraw(narrowed::container(container))
}

// list TALLY WORD WORD ..: its lines are entered.
pub fn list(rt: &impl Print, t: &mut Tally, line: &CallLine) -> io::Result<()> {
    let mut list = buffers::zeroed::<4096>();
    let n = lines::lay_list(line.words, &mut list);
    let answer = list_reader::read_list(t, &list[..n]);
    print::listed(rt, answer, t.held)
}
