// Runs the calls on standard input, one a line, and prints each answer. A line has at most 64 numbers; a mixing of more is not
// answered. The calls on a tally name one of two tallies, 1 or 2:
//
//     open TALLY ATTRIBUTE CONTAINERS F G n ROWS LOWEST HIGHEST BOUND TOLERATED N CRITICAL+1    enter TALLY CONTAINER X
//     weigh TALLY CONTAINER STATUS COMPONENT REMAINDER (float bits as numbers)    withdraw TALLY CONTAINER
//     join TALLY (the other)    report TALLY    write TALLY    writelist TALLY
//     list TALLY WORD WORD .. (a comma list: each word is one line of it)
//     sampling CONTAINERS KILOGRAMS    label LABELLED FOUND    pair FIRST SECOND    mixing TOLERATED X X ..
#![tactic(auto)]

mod lines;
mod print;
mod tallies;

use lines::CallLine;
use rules::Refusal;
use std::io;
use tally::Tally;

// mixing TOLERATED X X ..
fn mixing(rt: &impl Print, line: &CallLine) -> io::Result<()> {
    let kept = line.numbers.get(..line.count);
    match kept.and_then(|numbers| numbers.split_first()) {
        Some((tolerated, results)) => print::test(rt, mixing::mixable(results, *tolerated)),
        None => Ok(()),
    }
}

// A call that changes its tally; an unknown call changes nothing. Apart from `make`, since each is answered with what is then held.
fn change(rt: &impl Print, line: &CallLine, t: &mut Tally, other: &Tally) -> io::Result<()> {
    let answer = match line.name {
        b"open" => tallies::open(t, &line.numbers),
        b"enter" => tallies::enter(t, &line.numbers),
        b"weigh" => tallies::weigh(t, &line.numbers),
        b"withdraw" => tallies::withdraw(t, &line.numbers),
        b"join" => t.join(other),
        _ => Err(Refusal::BadLine),
    };
    print::held(rt, answer, t.held)
}

// Makes a line's call and prints its answer.
fn make(rt: &impl Print, line: &CallLine, t: &mut Tally, other: &Tally) -> io::Result<()> {
    let [first, second, ..] = line.numbers;
    match line.name {
        b"sampling" => print::number(rt, sampling::primary_samples(first, second)),
        b"label" => print::test(rt, tolerance::label(first, second)),
        b"pair" => print::test(rt, tolerance::pair(first, second)),
        b"mixing" => mixing(rt, line),
        b"report" => print::text(rt, |buf| report::report(*t, buf)),
        b"write" => print::text(rt, |buf| writer::write(*t, buf)),
        b"writelist" => print::text(rt, |buf| list_writer::write_list(*t, buf)),
        b"list" => tallies::list(rt, t, line),
        _ => change(rt, line, t, other),
    }
}

fn run(rt: &impl Print, text: &[u8]) -> io::Result<()> {
    let mut tallies = [tally::fresh(); 2];
    for line in text.split_inclusive(|b| *b == b'\n') {
        let line = lines::read(line.strip_suffix(b"\n").unwrap_or(line));
        let named = usize::from(line.numbers[0] == 2);
        let other = tallies[1 - named];
        make(rt, &line, &mut tallies[named], &other)?;
    }
    Ok(())
}

fn main(rt: HostRuntime) -> io::Result<()> {
    let mut text = buffers::zeroed::<65536>();
    let n = buffers::read_full(&mut rt.stdin(), &mut text)?;
    run(&rt, &text[..n])
}
