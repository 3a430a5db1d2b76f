// A list of calls on two tallies as bytes, made one after the other; compare/src/calls.rs says how a list and its answers are
// written. A test library, which `compare` links: it is proved safe, and what it answers is compared.
#![tactic(auto)]

mod answers;
mod calls;
mod opening;
mod tallies;

use calls::Bytes;

// Makes the calls of a list and lays their answers into the buffer; gives the number of bytes laid. A call whose answer has no room is
// not made, and ends the list: so the loop has a `break`, and no `for` would be plainer.
#[unsafe(no_mangle)]
pub extern "C" fn gelvorin_calls(list: &[u8], buf: &mut [u8]) -> u64 {
    let mut tallies = [tally::fresh(); 2];
    let mut list = Bytes::of(list);
    let mut at = 0;
    while let Some(call) = list.call() {
        let width = call.answer_width();
        if buf.len() - at < width {
            break;
        }
        let end = at + width;
        tallies::answer(&mut tallies, call, &mut buf[at..end]);
        at = end;
    }
    at as u64
}
