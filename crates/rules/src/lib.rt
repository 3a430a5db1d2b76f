// The plain data of a lot's results: attribute, lot, card, the frames of a sheet, what a report finds, and the numbered refusals, with
// which the calls answer where they give no value. What each means is said in specs/.
#![tactic(auto)]

pub mod attributes;
pub mod faults;
pub mod refusals;

// The most results that a tally holds, that a join may come to, and that N may be in a frame.
pub const MOST_HELD: usize = 200;

// The fewest results that are reported, and the smallest N in a frame of the card.
pub const LEAST_REPORTED: usize = 5;

// The highest result, and the highest bound of a range row.
pub const HIGHEST_X: u16 = 10000;

// Places for critical values: one for each N from 0 to the most.
pub const CRITICALS: usize = MOST_HELD + 1;

// The most range rows of a card.
pub const MOST_ROWS: usize = 96;

// F, G and n of a good card: F from the least to the most, G and n up to these.
pub const LEAST_FACTOR: u16 = 10;

pub const MOST_FACTOR: u16 = 50;

pub const MOST_OFFSET: u16 = 50;

pub const MOST_SEEDS: u16 = 1000;

// How many component lots may be mixed, at least and at most.
pub const FEWEST_MIXED: usize = 2;

pub const MOST_MIXED: usize = 60;

// How many tenths of a milligram a gram has.
pub const TENTHS_PER_GRAM: u64 = 10000;

// The largest number of four hexadecimal digits.
pub const WIDEST: u32 = 65535;

// The digits of each frame, its kind's two included.
pub const LOT_DIGITS: usize = 8;

pub const CARD_DIGITS: usize = 10;

pub const CRITICAL_DIGITS: usize = 8;

pub const RANGE_DIGITS: usize = 14;

pub const RESULT_DIGITS: usize = 10;

pub const END_DIGITS: usize = 4;

pub const BALANCE_DIGITS: usize = 24;

// What was tested.
#[derive(Clone, Copy, Debug, PartialEq, Eq)]
pub enum Attribute {
    Purity,
    Germination,
    Count,
}

// A lot: its attribute's number (00 purity, 01 germination, 02 count) and N0, how many containers it has. The attribute is a number,
// since an open refuses those above 2: an `Attribute` would ask more of callers.
#[derive(Clone, Copy, Debug, Default, PartialEq, Eq)]
pub struct Lot {
    pub attribute: u16,
    pub containers: u16,
}

// The head of a card: factor is F, offset is G, seeds is n.
#[derive(Clone, Copy, Debug, Default, PartialEq, Eq)]
pub struct Head {
    pub factor: u16,
    pub offset: u16,
    pub seeds: u16,
}

// A card (document 01's term): the numbers that a lot is judged by. critical has at N one more than the critical H for N results, and
// 0 where there is none: one comparison tests a place, and a fresh card is zeros. An `Option` at each of the places would be taken apart
// for each of these, and be no plainer.
// The range rows fill four lists; places past the last row count for nothing.
#[derive(Clone, Copy)]
pub struct Card {
    pub head: Head,
    pub critical: [u32; CRITICALS],
    pub rows: usize,
    pub lowest: [u16; MOST_ROWS],
    pub highest: [u16; MOST_ROWS],
    pub bound: [u16; MOST_ROWS],
    pub tolerated: [u16; MOST_ROWS],
}

// The trade words of document 01's table and of document 02's points.
#[derive(Clone, Copy, Debug, PartialEq, Eq)]
pub enum Refusal {
    BadLine,
    OutOfTurn,
    BadLot,
    BadCard,
    CardFull,
    NoSuchContainer,
    ResultTooHigh,
    AlreadyHeld,
    Full,
    NotHeld,
    OtherLot,
    SharedContainer,
    TooManyTogether,
    CountWrong,
    TooFew,
    BufferShort,
    OutsideTable,
    NotSteady,
    BadWeight,
    BadListLine,
}

// The stages of a sheet: which frame was read last.
#[derive(Clone, Copy, Debug, Default, PartialEq, Eq)]
pub enum Stage {
    #[default]
    Start,
    Lot,
    Card,
    Critical,
    Range,
    Result,
    End,
}

// What a line of a sheet says (document 01's term: a frame). The definitions have `Bad` among the kinds, and keep their meaning.
#[derive(Clone, Copy)]
pub enum Frame {
    Bad,
    Lot {
        attribute: u16,
        containers: u16,
    },
    Card {
        factor: u16,
        offset: u16,
        seeds: u16,
    },
    Critical {
        count: u16,
        value: u16,
    },
    Range {
        lowest: u16,
        highest: u16,
        bound: u16,
        tolerated: u16,
    },
    Result {
        container: u16,
        x: u16,
    },
    End {
        count: u16,
    },
    Balance {
        container: u16,
        status: u16,
        pans: Pans,
    },
}

// Both pans of a sample, in grams.
#[derive(Clone, Copy)]
pub struct Pans {
    pub component: f32,
    pub remainder: f32,
}

// What the balance says of one pan: an overload has no weight. Document 01 names this form.
#[derive(Clone, Copy)]
pub enum Reading {
    Steady(f32),
    Unsteady(f32),
    Overload,
}

// N, S, Q, and the two ends of the range.
#[derive(Clone, Copy)]
pub struct Figures {
    pub count: u16,
    pub sum: u32,
    pub squares: u64,
    pub smallest: u32,
    pub largest: u32,
}

// The range of results: how many were read, and its two ends.
#[derive(Clone, Copy)]
pub struct Range {
    pub read: u16,
    pub smallest: u32,
    pub largest: u32,
}

// V/W: a fraction of two whole numbers.
#[derive(Clone, Copy)]
pub struct Fraction {
    pub over: u64,
    pub under: u64,
}

// Undecided: without a limit, document 01's `open`.
#[derive(Clone, Copy, Debug, PartialEq, Eq)]
pub enum Verdict {
    Kept,
    Over,
    Undecided,
}

// On which side of a printed number the exact one is. Unrounded: the number was not rounded, and has no mark. It stands among the sides,
// as the definitions have it: an `Option` of a side would be taken apart wherever a mark is laid.
#[derive(Clone, Copy, Debug, PartialEq, Eq)]
pub enum Side {
    Unrounded,
    Equal,
    Larger,
    Smaller,
}

// What the rounding step gives: the nearest whole number, the larger of two equally near, and on which side of it the exact one is.
#[derive(Clone, Copy)]
pub struct Rounded {
    pub nearest: u64,
    pub side: Side,
}

// H or R as its line has it, with its decimal places, its side, and the limit that it is set against, where there is one.
#[derive(Clone, Copy)]
pub struct Value {
    pub places: u8,
    pub value: u64,
    pub side: Side,
    pub limit: Option<u32>,
    pub verdict: Verdict,
}

// H, R and the lot's verdict.
#[derive(Clone, Copy)]
pub struct Judgement {
    pub h: Value,
    pub r: Value,
    pub lot: Verdict,
}

// What the five lines of a report say: N, the mean with its decimal places and its side, and the judgement, which a void lot has not.
#[derive(Clone, Copy)]
pub struct Findings {
    pub count: u16,
    pub places: u8,
    pub mean: u64,
    pub side: Side,
    pub judgement: Option<Judgement>,
}

// Where a fault of a call on a sheet stands: in the call itself, or in a line of the sheet or of the list. No `Option`: of two files a
// line can be in, and each is printed with a number of its own.
#[derive(Clone, Copy)]
pub enum Place {
    Call,
    Sheet(usize),
    List(usize),
}

// What a call on a sheet is refused with, and where the fault stands: the error of a `Result`. The refusals of calls that read no line
// have no place, so that one beside every refusal would be no plainer.
#[derive(Clone, Copy)]
pub struct Fault {
    pub refusal: Refusal,
    pub place: Place,
}
