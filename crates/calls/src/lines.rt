// A line of a text: a word, and the numbers behind it, with single blanks between them. Of a list, the words behind its first number.
ghost use Rattle.std.specs.Prelude.{◌≤◌, length};

// The most numbers of a line that are kept.
pub const MOST_NUMBERS: usize = 64;

// The line's first word, how many words stand behind it, each with the blank before it, and the values of the first of them, with zeros
// behind them. No slice for `count` and `numbers`: more words are counted than are kept, and a call reads a number that is not there as 0.
#[derive(Clone, Copy)]
pub struct CallLine<'a> {
    pub name: &'a [u8],
    pub words: &'a [u8],
    pub count: usize,
    pub numbers: [u32; MOST_NUMBERS],
}

fn is_blank(b: &u8) -> bool {
    *b <= b' '
}

// The first word, and what stands behind it.
fn cut(text: &[u8]) -> (&[u8], &[u8])
    ensures { length result.1.now ≤ length text.now }
{
    text.split_at(text.iter().position(is_blank).unwrap_or(text.len()))
}

// A line without its end byte. What is no number counts as the largest.
pub fn read(line: &[u8]) -> CallLine<'_> {
    let (name, words) = cut(line);
    let mut numbers = [0; MOST_NUMBERS];
    for (number, word) in numbers.iter_mut().zip(words.split(is_blank).skip(1)) {
        *number = decimal_words::number(word).unwrap_or(u32::MAX);
    }
    CallLine {
        name,
        words,
        count: words.iter().filter(|b| is_blank(b)).count(),
        numbers,
    }
}

// What stands behind the first of a line's words.
fn behind_first(words: &[u8]) -> &[u8]
    ensures { length result.now ≤ length words.now }
{
    match words {
        [_, rest @ ..] => cut(rest).1,
        [] => words,
    }
}

// Lays the lines of a list into a buffer: the words behind the first, of which each has a blank before it, and an end byte behind each. How
// many bytes they have, as many as fit.
pub fn lay_list(words: &[u8], list: &mut [u8]) -> usize
    ensures { result ≤ length list.new }
{
    let words = behind_first(words);
    let n = words.len().min(list.len());
    for i in 0..n {
        list[i] = match words.get(i + 1) {
            Some(b) if *b != b' ' => *b,
            _ => b'\n',
        };
    }
    n
}
