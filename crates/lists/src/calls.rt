// The calls of a list, read one after the other. Numbers have their most significant byte first.
ghost use Rattle.std.specs.Prelude.{◌≤◌, ◌<◌, IfSome};

use rules::{CRITICALS, MOST_ROWS, Pans};

// The bytes of an open behind its first two: six numbers of two bytes, a number of four for each critical value, and four of two for each
// row.
pub const FIRST_CRITICAL: usize = 6 * 2;

pub const FIRST_ROW: usize = FIRST_CRITICAL + 4 * CRITICALS;

pub const OPENING: usize = FIRST_ROW + 4 * 2 * MOST_ROWS;

// What is written of a tally: a text, or its two sums.
#[derive(Clone, Copy)]
pub enum Written {
    Report,
    Sheet,
    List,
    Sums,
}

// What is called on a tally: a join joins the tally itself or the other one into it, and `room` bytes are lent for what is written.
#[derive(Clone, Copy)]
pub enum Call<'a> {
    Open(&'a [u8; OPENING]),
    Enter {
        container: u16,
        x: u16,
    },
    Withdraw {
        container: u16,
    },
    Join {
        itself: bool,
    },
    Weigh {
        container: u16,
        status: u16,
        pans: Pans,
    },
    List {
        lines: &'a [u8],
    },
    Write {
        what: Written,
        room: u16,
    },
}

// A call and the tally, 0 or 1, that it is made on.
#[derive(Clone, Copy)]
pub struct Named<'a> {
    pub on: usize,
    pub call: Call<'a>,
}

impl Named<'_> {
    // The bytes of its answer: a number; to a comma list also two for a line, to a call that writes two for a length, and those lent.
    pub fn answer_width(&self) -> usize
        ensures { (1 ≤ result) × (result ≤ 65538) }
    {
        match self.call {
            Call::List { .. } => 3,
            Call::Write { room, .. } => 3 + usize::from(room),
            _ => 1,
        }
    }
}

// The bytes of a list that are still to be read.
#[derive(Clone, Copy)]
pub struct Bytes<'a> {
    rest: &'a [u8],
}

impl<'a> Bytes<'a> {
    pub fn of(list: &'a [u8]) -> Bytes<'a> {
        Bytes { rest: list }
    }

    fn take<const N: usize>(&mut self) -> Option<&'a [u8; N]> {
        let (taken, rest) = self.rest.split_first_chunk::<N>()?;
        self.rest = rest;
        Some(taken)
    }

    fn number(&mut self) -> Option<u16> {
        self.take().map(|bytes| u16::from_be_bytes(*bytes))
    }

    // A number of four bytes. Two widths: a trait for the two would be no plainer.
    fn wide_number(&mut self) -> Option<u32> {
        self.take().map(|bytes| u32::from_be_bytes(*bytes))
    }

    // As many bytes as the number before them says.
    fn counted(&mut self) -> Option<&'a [u8]> {
        let length = self.number()?;
        let (taken, rest) = self.rest.split_at_checked(usize::from(length))?;
        self.rest = rest;
        Some(taken)
    }

    fn enter(&mut self) -> Option<Call<'a>> {
        Some(Call::Enter {
            container: self.number()?,
            x: self.number()?,
        })
    }

    fn weigh(&mut self) -> Option<Call<'a>> {
        Some(Call::Weigh {
            container: self.number()?,
            status: self.number()?,
            pans: Pans {
                component: weights::float(self.wide_number()?),
                remainder: weights::float(self.wide_number()?),
            },
        })
    }

    fn write(&mut self, what: Written) -> Option<Call<'a>> {
        Some(Call::Write {
            what,
            room: self.number()?,
        })
    }

    // A call by its kind, but for a join. The list's own byte becomes the enum here.
    fn of_kind(&mut self, kind: u8) -> Option<Call<'a>> {
        match kind {
            1 => Some(Call::Open(self.take()?)),
            2 => self.enter(),
            3 => Some(Call::Withdraw {
                container: self.number()?,
            }),
            5 => self.weigh(),
            6 => self.write(Written::Report),
            7 => self.write(Written::Sheet),
            8 => Some(Call::List {
                lines: self.counted()?,
            }),
            9 => self.write(Written::List),
            10 => self.write(Written::Sums),
            _ => None,
        }
    }

    // The next call: its kind, the name of its tallies, and what stands behind the two. None where the list ends: at its last byte, or at
    // bytes that are no whole call.
    pub fn call(&mut self) -> Option<Named<'a>>
        ensures { IfSome result (λ named. named.on < 2) }
    {
        let [kind, name] = *self.take::<2>()?;
        let (on, call) = match (kind, name) {
            (4, 0) => (0, Call::Join { itself: false }),
            (4, 1) => (1, Call::Join { itself: false }),
            (4, 2) => (0, Call::Join { itself: true }),
            (4, 3) => (1, Call::Join { itself: true }),
            (_, 0) => (0, self.of_kind(kind)?),
            (_, 1) => (1, self.of_kind(kind)?),
            _ => return None,
        };
        Some(Named { on, call })
    }
}
