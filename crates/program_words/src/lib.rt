// What lotsampling, lottolerance and lotmixing are given, and what they say in place of a value: the words as numbers, and a refusal.
// What is right is said in specs/Saying.antt, and what a word is given as in specs/Given.antt.
#![tactic(auto)]

ghost use Rattle.std.specs.Prelude.{◌≡◌, List, ℕ, take};
ghost use Rattle.decimal_words.specs.Words.{word_of};
ghost use Rattle.program_words.specs.Given.{GivenAs};
ghost use Rattle.program_words.specs.Saying.{two_numbers};
ghost use Rattle.program_words.specs.declared.Unsaid.TheVariants.{Refused};

use rules::Refusal;

// Why a program says no value: the error of its `Result`. Usage: a word is no plain decimal number, or there are too few or too many words.
#[derive(Clone, Copy, Debug, PartialEq, Eq)]
pub enum Unsaid {
    Usage,
    Refused(Refusal),
}

impl From<Refusal> for Unsaid {
    ghost from_gives = { λ refusal unsaid. unsaid ≡ Refused refusal };

    fn from(refusal: Refusal) -> Unsaid {
        Unsaid::Refused(refusal)
    }
}

// Places for a word: the longest that Linux hands to a program, and the byte that ends it.
pub const WORD: usize = 131072;

// The word that stands in the first `n` bytes of a buffer, as it was given: an array, since its length says that there are places for
// every word. `program_input::front` is the same expression, and promises of an input that begins with the bytes, not of the bytes alone.
pub fn word(buffer: &[u8; WORD], n: usize) -> &[u8]
    ensures result_value { result.now ≡ take n buffer.now }
    ensures by_index { (given : List ℕ) → GivenAs given buffer.now n → result.now ≡ given }
{
    &buffer[..n.min(WORD)]
}

// Two words as numbers. `counted`: there are as many words as the program takes. A flag: for an `Option` of the words each caller would
// make the same test.
pub fn two_numbers(counted: bool, first: &[u8], second: &[u8]) -> Option<(u32, u32)>
    ensures { result ≡ two_numbers counted (word_of first.now) (word_of second.now) }
{
    if !counted {
        return None;
    }
    decimal_words::number(first).zip(decimal_words::number(second))
}
