// The digits at the front of a sheet's line, as a part of the sheet.
#![tactic(auto)]

ghost use Rattle.std.specs.Prelude.{◌≡◌, ◌≤◌};
ghost use Rattle.std.specs.List.{list_all, prefix_len};
ghost use Rattle.rules.specs.Limits.{most_digits};
ghost use Rattle.rules.specs.Fields.{is_digit};
ghost use Rattle.cutter.specs.Cutting.{CutAt};

use rules::{BALANCE_DIGITS, CARD_DIGITS, RANGE_DIGITS, RESULT_DIGITS};

// Two tests and no branch: of one test for both ranges the compiler makes branches, and a line takes three times as long.
fn is_digit(c: u8) -> bool
    ensures { result ≡ is_digit c }
{
    matches!(c, b'0'..=b'9') | matches!(c, b'A'..=b'F')
}

// Whether all these bytes are digits. With no branch: the compiler looks at eight together.
fn all_digits(bytes: &[u8]) -> bool
    ensures { result ≡ list_all is_digit bytes.now }
{
    bytes.iter().fold(true, |ok, &c| ok & is_digit(c))
}

// Where the digits at the front end: at the first byte that is none, or at the end of `rest`.
fn digits_end(rest: &[u8]) -> usize
    ensures { result ≡ prefix_len is_digit rest.now }
{
    rest.iter().take_while(|&&c| is_digit(c)).count()
}

// How many digits a good line has whose second byte is this one, if they are more than eight; else eight. `kind` is the sheet's own byte,
// which may be any: an enum of the kinds would need a case for every other byte, and be no plainer.
fn likely_digits(kind: u8) -> usize
    ensures { (8 ≤ result) × (result ≤ most_digits) }
{
    match kind {
        b'2' => CARD_DIGITS,
        b'4' => RANGE_DIGITS,
        b'5' => RESULT_DIGITS,
        b'7' => BALANCE_DIGITS,
        _ => 8,
    }
}

// The place of `digits_end`, found in few steps where a good line of eight digits or more starts: its first eight bytes and its last
// eight are digits, some of them perhaps in both, in a line of more than sixteen the second eight too, and the end byte follows. The
// first eight have a branch of their own, before the kind is read: the compiler makes better code of that than of one test.
fn line_end(rest: &[u8]) -> usize
    ensures { result ≡ prefix_len is_digit rest.now }
{
    if BALANCE_DIGITS < rest.len() && all_digits(&rest[..8]) {
        let end = likely_digits(rest[1]);
        if all_digits(&rest[end - 8..end]) & (rest[end] == b'\n')
            && (end <= 16 || all_digits(&rest[8..16]))
        {
            return end;
        }
    }
    digits_end(rest)
}

// The digits of the line that starts at `at`: a part of the sheet. Whether the line's end byte follows them, the caller sees by their
// length.
#[tactic(auto, using(crate::proofs::Runs::run_fits))]
pub fn cut(sheet: &[u8], at: usize) -> &[u8]
    ensures { CutAt sheet.entry at result }
{
    let start = at.min(sheet.len());
    let end = start + line_end(&sheet[start..]);
    &sheet[start..end]
}
