// The lot and the card of an open.
ghost use Rattle.std.specs.Prelude.{◌≤◌, ◌+◌};
ghost use Rattle.lists.specs.declared.calls.TheConstants.{OPENING, FIRST_ROW};

use crate::calls::{FIRST_CRITICAL, FIRST_ROW, OPENING};
use rules::{CRITICALS, Card, Head, Lot, MOST_ROWS};
use std::array;

// The bytes of an open behind its first two, in which each number has a place of its own.
#[derive(Clone, Copy)]
pub struct Opening<'a> {
    pub bytes: &'a [u8; OPENING],
}

impl Opening<'_> {
    // The number that the two bytes from `at` on spell.
    fn two(self, at: usize) -> u16
        requires { at + 2 ≤ OPENING }
    {
        u16::from_be_bytes([self.bytes[at], self.bytes[at + 1]])
    }

    // The number that the four bytes from `at` on spell. Two widths: a trait for the two would be no plainer.
    fn four(self, at: usize) -> u32
        requires { at + 4 ≤ OPENING }
    {
        let bytes = self.bytes;
        u32::from_be_bytes([bytes[at], bytes[at + 1], bytes[at + 2], bytes[at + 3]])
    }

    pub fn lot(self) -> Lot {
        Lot {
            attribute: self.two(0),
            containers: self.two(2),
        }
    }

    // For each N from 0 on a number of four bytes.
    fn criticals(self) -> [u32; CRITICALS] {
        array::from_fn(|n| self.four(FIRST_CRITICAL + 4 * n))
    }

    // One of the four numbers of each row; in the first row it stands at `first`.
    fn column(self, first: usize) -> [u16; MOST_ROWS]
        requires { first ≤ FIRST_ROW + 6 }
    {
        array::from_fn(|row| self.two(first + 8 * row))
    }

    pub fn card(self) -> Card {
        Card {
            head: Head {
                factor: self.two(4),
                offset: self.two(6),
                seeds: self.two(8),
            },
            critical: self.criticals(),
            rows: usize::from(self.two(10)),
            lowest: self.column(FIRST_ROW),
            highest: self.column(FIRST_ROW + 2),
            bound: self.column(FIRST_ROW + 4),
            tolerated: self.column(FIRST_ROW + 6),
        }
    }
}
