// A line of the answer.
use rules::{Fault, Refusal};
use std::io;

fn refused(rt: &impl Print, refusal: Refusal) -> io::Result<()> {
    println!(rt; "REFUSED {}", refusal.number())
}

// A call beside the tally: its value, or its refusal.
pub fn number(rt: &impl Print, answer: Result<u32, Refusal>) -> io::Result<()> {
    match answer {
        Ok(value) => println!(rt; "{value}"),
        Err(refusal) => refused(rt, refusal),
    }
}

// 1 for within and for mixable, 0 for out and for not mixable.
pub fn test(rt: &impl Print, answer: Result<bool, Refusal>) -> io::Result<()> {
    number(rt, answer.map(u32::from))
}

// The number of an answer that has no value: 0, or the refusal's.
fn number_of(answer: Result<(), Refusal>) -> u32 {
    answer.err().map_or(0, |refusal| refusal.number())
}

// A call that changes a tally: its answer's number, and how many results are then held.
pub fn held(rt: &impl Print, answer: Result<(), Refusal>, results: usize) -> io::Result<()> {
    println!(rt; "{} held {results}", number_of(answer))
}

// A comma list: its answer's number, the line of its fault or 0, and how many results are then held.
pub fn listed(rt: &impl Print, answer: Result<(), Fault>, results: usize) -> io::Result<()> {
    let line = answer.err().map_or(0, |fault| fault.place.line());
    let answer = answer.map_err(|fault| fault.refusal);
    println!(rt; "{} {line} held {results}", number_of(answer))
}

// A call that writes a text: its text, or its refusal.
pub fn text<F: FnOnce(&mut [u8]) -> Result<usize, Refusal>>(
    rt: &impl Print,
    write: F,
) -> io::Result<()>
    requires { F.IsAlwaysCallable write }
{
    let mut buf = buffers::zeroed::<8192>();
    match write(&mut buf) {
        Ok(n) => rt.write_all(buf.get(..n).unwrap_or_default()),
        Err(refusal) => refused(rt, refusal),
    }
}
