// lotmixing TOLERATED X X ..: prints `mixable` or `not mixable`, for component lots with the results X and a tolerated R.
#![tactic(auto)]

ghost use Rattle.std.specs.Prelude.{◌≡◌, List, ℕ, ◌-◌, take};
ghost use Rattle.buffers.specs.Counts.{IsPrefixLen};
ghost use Rattle.decimal.specs.Laying.{Laid};
ghost use Rattle.program_words.specs.Given.{GivenAs};
ghost use Rattle.program_words.specs.Saying.{test_said};
ghost use Rattle.program_lines.specs.Printing.{said_to_mixing, mixing_prints};
ghost use Rattle.lotmixing.specs.Listing.{KeptOf, Adds, OneMore, ReadOf, said_to_numbers};

mod numbers;

use numbers::Numbers;
use program_lines::LINE;
use program_words::{Unsaid, WORD};
use std::io;
use std::rt::Env;

// The numbers of the words so far and of one word more; none where a word is no number.
#[tactic(auto, using(crate::proofs::KeepingLaws::keeping))]
fn with_bytes(numbers: Option<Numbers>, word: &[u8]) -> Option<Numbers>
    ensures { Adds word.now numbers result }
{
    let numbers = numbers?;
    let x = decimal_words::number(word)?;
    Some(numbers.with(x))
}

// One word more, which stands in the first `n` bytes of a buffer.
fn with_word(numbers: Option<Numbers>, buffer: &[u8; WORD], n: usize) -> Option<Numbers>
    ensures adds { Adds (take n buffer.now) numbers result }
    ensures by_index { (word : List ℕ) → GivenAs word buffer.now n → Adds word numbers result }
{
    with_bytes(numbers, program_words::word(buffer, n))
}

// What is said to numbers: the first is the tolerated R.
#[tactic(auto, using(program_words::proofs::SayingLaws::refusal_said))]
fn said_to_numbers(numbers: &[u32]) -> Result<bool, Unsaid>
    ensures { test_said result ≡ said_to_numbers numbers.now }
{
    let (tolerated, results) = numbers.split_first().ok_or(Unsaid::Usage)?;
    Ok(mixing::mixable(results, *tolerated)?)
}

// What is said to the words.
#[tactic(auto, using(crate::proofs::KeepingLaws::said_other, crate::proofs::KeepingLaws::said_kept))]
fn said_to(numbers: Option<Numbers>) -> Result<bool, Unsaid>
    ensures { (words : List (List ℕ)) → KeptOf words numbers → test_said result ≡ said_to_mixing words }
{
    let numbers = numbers.ok_or(Unsaid::Usage)?;
    said_to_numbers(numbers.as_slice())
}

// The line to the words, and its length.
fn answer(numbers: Option<Numbers>, line: &mut [u8; LINE]) -> usize
    ensures by_index { (words : List (List ℕ)) → KeptOf words numbers → Laid (mixing_prints words) line.old line.new result }
    ensures prefix_len { IsPrefixLen result line.new }
{
    program_lines::verdict_line(
        said_to(numbers),
        b"usage: lotmixing TOLERATED X X ..",
        b"mixable",
        b"not mixable",
        line,
    )
}

// The words so far and argument i.
fn with_argument(rt: &impl Env, numbers: Option<Numbers>, i: usize) -> Option<Numbers>
    ensures { OneMore numbers result }
{
    let mut buffer = buffers::zeroed::<WORD>();
    let n = buffers::word(rt, i, &mut buffer);
    with_word(numbers, &buffer, n)
}

// All arguments, of which there are `arguments` with the program's own name.
#[tactic(auto, using(crate::proofs::KeepingLaws::read_none, crate::proofs::KeepingLaws::read_more))]
fn read_words(rt: &impl Env, arguments: usize) -> Option<Numbers>
    ensures { ReadOf (arguments - 1) result }
{
    let mut numbers = Some(Numbers::none());
    for i in 1..arguments {
        numbers = with_argument(rt, numbers, i);
    }
    numbers
}

fn main(rt: HostRuntime) -> io::Result<()> {
    let mut line = [0u8; LINE];
    let n = answer(read_words(&rt, buffers::word_count(&rt)), &mut line);
    rt.write_all(&line[..n])
}
