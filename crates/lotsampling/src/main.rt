// lotsampling CONTAINERS KILOGRAMS: prints the number of primary samples for so many containers of so many whole kg each.
#![tactic(auto)]

ghost use Rattle.std.specs.Prelude.{◌≡◌, List, ℕ};
ghost use Rattle.buffers.specs.Counts.{IsPrefixLen};
ghost use Rattle.decimal.specs.Laying.{Laid};
ghost use Rattle.program_words.specs.Given.{GivenAs};
ghost use Rattle.program_words.specs.Saying.{number_said, said_to_two};
ghost use Rattle.program_lines.specs.Printing.{said_to_sampling, sampling_prints};

use program_lines::LINE;
use program_words::{Unsaid, WORD};
use std::io;

// What is said to the words.
#[tactic(auto, using(program_words::proofs::SayingLaws::refusal_said))]
fn said_to(words: Option<(u32, u32)>) -> Result<u32, Unsaid>
    ensures { number_said result ≡ said_to_two said_to_sampling words }
{
    let (containers, kilograms) = words.ok_or(Unsaid::Usage)?;
    Ok(sampling::primary_samples(containers, kilograms)?)
}

// The line to two words, and its length.
fn line_to(arguments: usize, containers: &[u8], kilograms: &[u8], line: &mut [u8; LINE]) -> usize
    ensures text { Laid (sampling_prints arguments containers.now kilograms.now) line.old line.new result }
    ensures prefix_len { IsPrefixLen result line.new }
{
    let words = program_words::two_numbers(arguments == 3, containers, kilograms);
    let said = said_to(words);
    program_lines::number_line(said, b"usage: lotsampling CONTAINERS KILOGRAMS", line)
}

// The line to the words that stand in the first `k` and `c` bytes of their buffers, and its length. The buffers are cut here, and not in
// `main`, whose reads and writes no contract speaks of.
fn answer(
    arguments: usize,
    containers: &[u8; WORD],
    k: usize,
    kilograms: &[u8; WORD],
    c: usize,
    line: &mut [u8; LINE],
) -> usize
    ensures by_index { (v w : List ℕ) → GivenAs v containers.now k → GivenAs w kilograms.now c → Laid (sampling_prints arguments v w) line.old line.new result }
    ensures prefix_len { IsPrefixLen result line.new }
{
    let v = program_words::word(containers, k);
    let w = program_words::word(kilograms, c);
    line_to(arguments, v, w, line)
}

// That of lottolerance reads another number of words, each into a buffer of its own.
fn main(rt: HostRuntime) -> io::Result<()> {
    let mut containers = buffers::zeroed::<WORD>();
    let mut kilograms = buffers::zeroed::<WORD>();
    let mut line = [0u8; LINE];
    let k = buffers::word(&rt, 1, &mut containers);
    let c = buffers::word(&rt, 2, &mut kilograms);
    let n = answer(
        buffers::word_count(&rt),
        &containers,
        k,
        &kilograms,
        c,
        &mut line,
    );
    rt.write_all(&line[..n])
}
