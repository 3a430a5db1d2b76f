// A line of a comma list: container, comma, value. What is right is said in rules/specs/ListReading.antt; how a line is handed on in
// specs/Lines.antt.
#![tactic(auto)]

ghost use Rattle.std.specs.Prelude.{◌≡◌};
ghost use Rattle.rules.specs.ListReading.{leads_zero, first, has, plain_of, hundredths_of, percent_of, value_of, say_of};
ghost use Rattle.decimal_words.specs.Words.{when};
ghost use Rattle.list_lines.specs.Lines.{entry_of, number_is, Parted, ReadAt};

use rules::Attribute;

// The container and X that a line says. A container above 65535 stands here as 0, which no lot has either; an X above 65535 as 65535.
#[derive(Clone, Copy)]
pub struct Entry {
    pub container: u16,
    pub x: u16,
}

// What a line of a list says, where it is no bad line, and the place of its end byte.
#[derive(Clone, Copy)]
pub struct LineRead {
    pub entry: Option<Entry>,
    pub end: usize,
}

// The place of the first b in s.
fn place(s: &[u8], b: u8) -> Option<usize>
    ensures { result ≡ when (has b s.now) (first b s.now) }
{
    s.iter().position(|x| *x == b)
}

// What stands before the first b, and behind it.
fn parts(s: &[u8], b: u8) -> Option<(&[u8], &[u8])>
    ensures { Parted b s.now result }
{
    let p = place(s, b)?;
    Some((&s[..p], &s[p + 1..]))
}

fn leads_zero(word: &[u8]) -> bool
    ensures { result ≡ leads_zero word.now }
{
    word.len() > 1 && word[0] == b'0'
}

// A plain number: digits alone, no leading zero. Here and below the largest number of 32 bits stands for every larger one.
#[tactic(auto, using(crate::proofs::LineLaws::plain_is))]
fn plain(word: &[u8]) -> Option<u32>
    ensures { result ≡ number_is (plain_of word.now) }
{
    if leads_zero(word) {
        return None;
    }
    decimal_words::number(word)
}

// The digits behind a point, in hundredths: a single one counts tenths.
#[tactic(auto, using(crate::proofs::LineLaws::hundredths_is))]
fn hundredths(word: &[u8]) -> Option<u32>
    ensures { result ≡ number_is (hundredths_of word.now) }
{
    match word.len() {
        1 => decimal_words::number(word).map(|tenths| tenths.saturating_mul(10)),
        2 => decimal_words::number(word),
        _ => None,
    }
}

// A percentage, with or without a point.
#[tactic(auto, using(crate::proofs::LineLaws::percent_is, crate::proofs::LineLaws::before_all))]
fn percent(word: &[u8]) -> Option<u32>
    ensures { result ≡ number_is (percent_of word.now) }
{
    let (whole, part) = match parts(word, b'.') {
        Some((whole, part)) => (plain(whole)?, hundredths(part)?),
        None => (plain(word)?, 0),
    };
    Some(whole.saturating_mul(100).saturating_add(part))
}

// X: hundredths of a percent, or whole seeds.
fn value_of(a: Attribute, word: &[u8]) -> Option<u32>
    ensures { result ≡ number_is (value_of a word.now) }
{
    match a {
        Attribute::Purity | Attribute::Germination => percent(word),
        Attribute::Count => plain(word),
    }
}

// What a line without its end byte says.
#[tactic(auto, using(crate::proofs::LineLaws::entry_is))]
fn line_of(a: Attribute, line: &[u8]) -> Option<Entry>
    ensures { result ≡ entry_of (say_of a line.now) }
{
    let (container, value) = parts(line, b',')?;
    Some(Entry {
        container: narrowed::container(plain(container)?),
        x: narrowed::result(value_of(a, value)?),
    })
}

// The line of a list that starts at `at`. Whether its end byte is there, the caller sees by the list's length.
pub fn line_at(a: Attribute, list: &[u8], at: usize) -> LineRead
    ensures { ReadAt a list.now at result }
{
    let start = at.min(list.len());
    let rest = &list[start..];
    let length = place(rest, b'\n').unwrap_or(rest.len());
    LineRead {
        entry: line_of(a, &rest[..length]),
        end: start + length,
    }
}
