// The number that documents 01 and 02 give to each refusal. A table as the documents have it; each number stands once.
ghost use Rattle.std.specs.Prelude.{◌≡◌};
ghost use Rattle.rules.specs.Numbers.{number_of};

use crate::Refusal;

impl Refusal {
    pub fn number(self) -> u32
        ensures { result ≡ number_of self }
    {
        match self {
            Refusal::BadLine => 1,
            Refusal::OutOfTurn => 2,
            Refusal::BadLot => 3,
            Refusal::BadCard => 4,
            Refusal::CardFull => 5,
            Refusal::NoSuchContainer => 6,
            Refusal::ResultTooHigh => 7,
            Refusal::AlreadyHeld => 8,
            Refusal::Full => 9,
            Refusal::NotHeld => 10,
            Refusal::OtherLot => 11,
            Refusal::SharedContainer => 12,
            Refusal::TooManyTogether => 13,
            Refusal::CountWrong => 14,
            Refusal::TooFew => 15,
            Refusal::BufferShort => 16,
            Refusal::OutsideTable => 17,
            Refusal::NotSteady => 18,
            Refusal::BadWeight => 19,
            Refusal::BadListLine => 20,
        }
    }
}
