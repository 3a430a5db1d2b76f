// lottolerance label LABELLED FOUND, lottolerance pair FIRST SECOND: prints `within` or `out`, by the tables 14G and 14H.
#![tactic(auto)]

ghost use Rattle.std.specs.Prelude.{◌≡◌, List, ℕ};
ghost use Rattle.buffers.specs.Counts.{IsPrefixLen};
ghost use Rattle.decimal.specs.Laying.{Laid};
ghost use Rattle.program_words.specs.Given.{GivenAs};
ghost use Rattle.program_words.specs.Saying.{said_to_two, test_said};
ghost use Rattle.program_lines.specs.Printing.{said_to_kind, tolerance_prints};

use program_lines::LINE;
use program_words::{Unsaid, WORD};
use std::io;

// What is said to the words.
#[tactic(auto, using(program_words::proofs::SayingLaws::refusal_said, program_lines::proofs::SameLaws::same_words))]
fn said_to(kind: &[u8], words: Option<(u32, u32)>) -> Result<bool, Unsaid>
    ensures { test_said result ≡ said_to_two (said_to_kind kind.now) words }
{
    let (a, b) = words.ok_or(Unsaid::Usage)?;
    match kind {
        b"label" => Ok(tolerance::label(a, b)?),
        b"pair" => Ok(tolerance::pair(a, b)?),
        _ => Err(Unsaid::Usage),
    }
}

// The line to three words, and its length.
fn line_to(
    arguments: usize,
    kind: &[u8],
    first: &[u8],
    second: &[u8],
    line: &mut [u8; LINE],
) -> usize
    ensures text { Laid (tolerance_prints arguments kind.now first.now second.now) line.old line.new result }
    ensures prefix_len { IsPrefixLen result line.new }
{
    let words = program_words::two_numbers(arguments == 4, first, second);
    let said = said_to(kind, words);
    program_lines::verdict_line(
        said,
        b"usage: lottolerance label LABELLED FOUND, or lottolerance pair FIRST SECOND",
        b"within",
        b"out",
        line,
    )
}

// The line to the words that stand in the first `k`, `a` and `b` bytes of their buffers, and its length. The buffers are cut here, and not
// in `main`, whose reads and writes no contract speaks of.
fn answer(
    arguments: usize,
    kind: &[u8; WORD],
    k: usize,
    first: &[u8; WORD],
    a: usize,
    second: &[u8; WORD],
    b: usize,
    line: &mut [u8; LINE],
) -> usize
    ensures by_index { (u v w : List ℕ) → GivenAs u kind.now k → GivenAs v first.now a → GivenAs w second.now b → Laid (tolerance_prints arguments u v w) line.old line.new result }
    ensures prefix_len { IsPrefixLen result line.new }
{
    let u = program_words::word(kind, k);
    let v = program_words::word(first, a);
    let w = program_words::word(second, b);
    line_to(arguments, u, v, w, line)
}

// That of lotsampling reads another number of words, each into a buffer of its own.
fn main(rt: HostRuntime) -> io::Result<()> {
    let mut kind = buffers::zeroed::<WORD>();
    let mut first = buffers::zeroed::<WORD>();
    let mut second = buffers::zeroed::<WORD>();
    let mut line = [0u8; LINE];
    let k = buffers::word(&rt, 1, &mut kind);
    let a = buffers::word(&rt, 2, &mut first);
    let b = buffers::word(&rt, 3, &mut second);
    let n = answer(
        buffers::word_count(&rt),
        &kind,
        k,
        &first,
        a,
        &second,
        b,
        &mut line,
    );
    rt.write_all(&line[..n])
}
