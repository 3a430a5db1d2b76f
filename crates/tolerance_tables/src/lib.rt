// The AOSA tables 14G and 14H, and how they are read. The compiler lays a constant array out anew at each use, so that a table has
// numbers no wider than it needs and is used once in a call. A cast with `as` keeps every bit of what it is given.
#![tactic(auto)]

ghost use Rattle.std.specs.Prelude.{◌≡◌, ◌≤◌, map, length, ltb, count_by};
ghost use Rattle.rules.specs.Tolerance.{table14_h};
ghost use Rattle.tolerance_tables.specs.Entries.{coded, most_found, tolerated_difference};

use crate::tables::{Row, TABLE_14G, TABLE_14H};

mod tables;

// The last row of Table 14H is written out in these two constants: read from the table it would be laid out once more.

// The largest average of Table 14H.
const LAST_AVERAGE: u32 = 501;

// The place of the last row of Table 14H.
const LAST_ROW: usize = 57;

// Table 14H. In a function of its own, so that its reader knows it by the definition and not by each of its rows.
fn rows_14h() -> [Row; 58]
    ensures { result ≡ map coded table14_h }
{
    TABLE_14H
}

// How many rows have a top below an average: a sum of ones, so that no row makes a branch. A search by halves, as `partition_point` is,
// has a branch at each step.
fn rows_below(rows: &[Row], average: u16) -> u16
    requires { length rows.now ≤ 57 }
    ensures { result ≡ count_by (λ row. ltb row.top average) rows.now }
{
    rows.iter().map(|row| u16::from(row.top < average)).sum()
}

// Table 14H: the tolerated difference for an average, that of the first row whose top is at least the average. As the tops rise, it
// stands behind all rows with a top below the average, so that its place is their number. A lookup in a table, as the next one is, and no
// `From`: an average is any number, and may be outside.
pub fn tolerated_difference(average: u32) -> Option<u32>
    ensures { result ≡ tolerated_difference average }
{
    if LAST_AVERAGE < average {
        return None;
    }
    let rows = rows_14h();
    let below = rows_below(&rows[..LAST_ROW], average as u16);
    Some(u32::from(rows[usize::from(below)].tolerated))
}

// Table 14G: the most seeds found for a label, column B.
pub fn most_found(labelled: u32) -> Option<u32>
    ensures { result ≡ most_found labelled }
{
    let column = TABLE_14G;
    Some(u32::from(*column.get(labelled as usize)?))
}
