// A word of bytes read as a decimal number. What is right is said in specs/Words.antt.
#![tactic(auto)]

ghost use Rattle.std.specs.Prelude.{◌≡◌, ◌+◌, ◌-◌, ◌*◌};
ghost use Rattle.rules.specs.Decimals.{is_decimal};
ghost use Rattle.decimal_words.specs.Words.{capped, word_of, when};

// The number of the digits so far with one digit more, where c is one.
fn with_digit(number: u32, c: u8) -> Option<u32>
    ensures { result ≡ when (is_decimal c) (capped (10 * number + (c - 48))) }
{
    let digit = char::from(c).to_digit(10)?;
    Some(number.saturating_mul(10).saturating_add(digit))
}

// A word as a decimal number.
pub fn number(word: &[u8]) -> Option<u32>
    ensures { result ≡ word_of word.now }
{
    if word.is_empty() {
        return None;
    }
    word.iter().try_fold(0, |number, c| with_digit(number, *c))
}
