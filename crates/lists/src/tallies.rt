// The calls on the two tallies.
ghost use Rattle.std.specs.Prelude.{◌≤◌, ◌<◌, length};

use crate::answers::Answer;
use crate::calls::{Call, Named, OPENING, Written};
use crate::opening::Opening;
use rules::Refusal;
use tally::Tally;

// The next two are not inlined: what an open or a writer needs on the stack would be made for every call.

#[inline(never)]
fn opened(t: &mut Tally, bytes: &[u8; OPENING]) -> Result<(), Refusal> {
    let opening = Opening { bytes };
    t.open(opening.lot(), opening.card())
}

#[inline(never)]
fn written(t: &Tally, what: Written, lent: &mut [u8]) -> Result<usize, Refusal> {
    match what {
        Written::Report => report::report(*t, lent),
        Written::Sheet => writer::write(*t, lent),
        Written::List => list_writer::write_list(*t, lent),
        Written::Sums => sums(t, lent),
    }
}

// S in four bytes and Q in eight.
fn sums(t: &Tally, lent: &mut [u8]) -> Result<usize, Refusal> {
    let (sum, behind) = lent
        .split_first_chunk_mut::<4>()
        .ok_or(Refusal::BufferShort)?;
    let (squares, _) = behind
        .split_first_chunk_mut::<8>()
        .ok_or(Refusal::BufferShort)?;
    *sum = t.sum.to_be_bytes();
    *squares = t.squares.to_be_bytes();
    Ok(12)
}

// Joins the tally itself or the other one into it. Two tallies and which is named: no buffer with a length.
fn joined(tallies: &mut [Tally; 2], on: usize, itself: bool) -> Result<(), Refusal>
    requires { on < 2 }
{
    let other = tallies[if itself { on } else { 1 - on }];
    tallies[on].join(&other)
}

// Makes a call. `lent` are the bytes for what is written.
fn made(tallies: &mut [Tally; 2], named: Named, lent: &mut [u8]) -> Answer
    requires { named.on < 2 }
{
    let t = &mut tallies[named.on];
    match named.call {
        Call::Open(bytes) => Answer::from(opened(t, bytes)),
        Call::Enter { container, x } => Answer::from(t.enter(container, x)),
        Call::Withdraw { container } => Answer::from(t.withdraw(container)),
        Call::Join { itself } => Answer::from(joined(tallies, named.on, itself)),
        Call::Weigh {
            container,
            status,
            pans,
        } => Answer::from(t.weigh(container, status, pans)),
        Call::List { lines } => Answer::from(list_reader::read_list(t, lines)),
        Call::Write { what, .. } => Answer::from(written(t, what, lent)),
    }
}

// Makes a call and lays its answer into the bytes that it has.
pub fn answer(tallies: &mut [Tally; 2], named: Named, bytes: &mut [u8])
    requires { named.on < 2 }
{
    let head = bytes.len().min(3);
    let (head, lent) = bytes.split_at_mut(head);
    made(tallies, named, lent).lay(head);
}
