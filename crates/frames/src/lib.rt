// A line's fields of hexadecimal digits, and the frame that a line is. A cast with `as` keeps every bit of what it is given.
#![tactic(auto)]

ghost use Rattle.std.specs.Prelude.{◌≡◌, true, ◌+◌, ◌≤◌, ◌<◌, length, get_or};
ghost use Rattle.rules.specs.Fields.{all_digits, value_of, field_of};
ghost use Rattle.rules.specs.Frames.{float_of, frame_of};
ghost use Rattle.frames.specs.Promise.{LineAt};

use rules::{
    BALANCE_DIGITS, CARD_DIGITS, CRITICAL_DIGITS, END_DIGITS, Frame, LOT_DIGITS, Pans,
    RANGE_DIGITS, RESULT_DIGITS,
};

// A line's frame, and where its digits end: on a line of digits alone, the place of its end byte.
#[derive(Drop)]
pub struct FramedLine {
    pub frame: Frame,
    pub end: usize,
}

// A line that has nothing but digits.
#[derive(Clone, Copy)]
struct Digits<'a> {
    line: &'a [u8],
    ghost all_digits: { all_digits line.now ≡ true },
}

impl Digits<'_> {
    // The value of the digit at `at`: the byte of A is 65, one above 64, and that of 0 is 48. Without a branch, since nothing foretells
    // which digits are letters.
    #[tactic(auto, using(crate::proofs::DigitLaws::value_by_byte, cutter::proofs::Lines::digit_at))]
    fn digit(&self, at: usize) -> u16
        requires { at < length self.now.line.now }
        ensures { result ≡ value_of (get_or self.now.line.now at 0) }
    {
        let c = self.line[at];
        u16::from(c % 16 + c / 64 * 9)
    }

    // The field of two digits from `from` on.
    #[tactic(auto, using(crate::proofs::DigitLaws::field_two, rules::proofs::FieldLaws::value_lt))]
    fn two(&self, from: usize) -> u16
        requires { from + 2 ≤ length self.now.line.now }
        ensures { result ≡ field_of self.now.line.now from 2 }
    {
        self.digit(from) * 16 + self.digit(from + 1)
    }

    // The field of four digits from `from` on, read as one number of four bytes, the first the lowest: each step is taken on all four at
    // once. `values` has a digit's value in each byte, made as in `digit`; `pairs` has the number of the first two digits in its first
    // byte, and that of the last two in its third. One function for two and four digits, a loop over them, reads a sheet's lines in a
    // quarter more time.
    #[tactic(auto, using(crate::proofs::FourBytes::values_le, crate::proofs::FourBytes::four_is))]
    fn four(&self, from: usize) -> u16
        requires { from + 4 ≤ length self.now.line.now }
        ensures { result ≡ field_of self.now.line.now from 4 }
    {
        let line = self.line;
        let bytes = u32::from_le_bytes([
            line[from],
            line[from + 1],
            line[from + 2],
            line[from + 3],
        ]);
        let values = (bytes & 0x0F0F0F0F) + 9 * (bytes / 64 & 0x01010101);
        let pairs = (16 * values + values / 256) & 0x00FF00FF;
        (256 * (pairs % 256) + pairs / 65536) as u16
    }

    // The float of the 8 digits from `from` on: four and four.
    #[tactic(auto, using(crate::proofs::DigitLaws::field_halves))]
    fn float_at(&self, from: usize) -> f32
        requires { from + 8 ≤ length self.now.line.now }
        ensures { result ≡ float_of self.now.line.now from }
    {
        let high = u32::from(self.four(from));
        let low = u32::from(self.four(from + 4));
        weights::float(high * 65536 + low)
    }

    // The two floats from `from` on: component and remainder.
    fn pans(&self, from: usize) -> Pans
        requires { from + 16 ≤ length self.now.line.now }
        ensures component { result.component ≡ float_of self.now.line.now from }
        ensures remainder { result.remainder ≡ float_of self.now.line.now (from + 8) }
    {
        Pans {
            component: self.float_at(from),
            remainder: self.float_at(from + 8),
        }
    }

    // What the line says: the frame of its kind, if it has as many digits as that has, else a bad line. The kind is a number as the line's
    // first two digits give it, and nothing else asks for it.
    #[tactic(auto, unfolding(
    // a line, by its kind
    rules::specs::Frames::frame_of, rules::specs::Frames::kind_frame,
    // lot and card
    rules::specs::Frames::lot_frame, rules::specs::Frames::card_frame,
    // the card's further lines
    rules::specs::Frames::critical_frame, rules::specs::Frames::range_frame,
    // results
    rules::specs::Frames::result_frame, rules::specs::Frames::balance_frame, rules::specs::Frames::end_frame))]
    fn frame(&self) -> Frame
        ensures { result ≡ frame_of self.now.line.now }
    {
        if self.line.len() < 2 {
            return Frame::Bad;
        }
        match (self.two(0), self.line.len()) {
            (1, LOT_DIGITS) => Frame::Lot {
                attribute: self.two(2),
                containers: self.four(4),
            },
            (2, CARD_DIGITS) => Frame::Card {
                factor: self.two(2),
                offset: self.two(4),
                seeds: self.four(6),
            },
            (3, CRITICAL_DIGITS) => Frame::Critical {
                count: self.two(2),
                value: self.four(4),
            },
            (4, RANGE_DIGITS) => Frame::Range {
                lowest: self.two(2),
                highest: self.two(4),
                bound: self.four(6),
                tolerated: self.four(10),
            },
            (5, RESULT_DIGITS) => Frame::Result {
                container: self.four(2),
                x: self.four(6),
            },
            (6, END_DIGITS) => Frame::End { count: self.two(2) },
            (7, BALANCE_DIGITS) => Frame::Balance {
                container: self.four(2),
                status: self.two(6),
                pans: self.pans(8),
            },
            _ => Frame::Bad,
        }
    }
}

// What the line that starts at `at` says. A line with another byte than digits, or without its end byte, is a bad one.
pub fn line_at(sheet: &[u8], at: usize) -> FramedLine
    ensures { LineAt sheet.now at result }
{
    let line = cutter::cut(sheet, at);
    let end = at + line.len();
    let frame = if sheet.get(end) == Some(&b'\n') {
        Digits { line }.frame()
    } else {
        Frame::Bad
    };
    FramedLine { frame, end }
}
