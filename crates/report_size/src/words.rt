// The words of a report's lines.
ghost use Rattle.std.specs.Prelude.{◌≡◌, ◌≤◌, length};
ghost use Rattle.rules.specs.Report.{mark_text, verdict_word, lot_word};

use rules::{Side, Verdict};

// Where there is no limit.
pub const NONE: &[u8] = b"none";

// The lines of H, R and the lot where the lot is void.
pub const VOID: &[u8] = b"H void\nR void\nLOT void\n";

// The mark directly behind a rounded number: what the exact one is against it.
#[tactic(auto, unfolding(rules::specs::Report::mark_text))]
pub fn mark(side: Side) -> &'static [u8]
    ensures { (result.now ≡ mark_text side) × (length result.now ≤ 1) }
{
    match side {
        Side::Unrounded => b"",
        Side::Equal => b"=",
        Side::Larger => b"+",
        Side::Smaller => b"-",
    }
}

// Two functions, each a table of words: one with the words as parameters would be no plainer.

// The verdict of H or of R.
#[tactic(auto, unfolding(rules::specs::Report::verdict_word))]
pub fn verdict(v: Verdict) -> &'static [u8]
    ensures { (result.now ≡ verdict_word v) × (length result.now ≡ 4) }
{
    match v {
        Verdict::Kept => b"kept",
        Verdict::Over => b"over",
        Verdict::Undecided => b"open",
    }
}

// The verdict of the lot.
#[tactic(auto, unfolding(rules::specs::Report::lot_word))]
pub fn lot(v: Verdict) -> &'static [u8]
    ensures { (result.now ≡ lot_word v) × (length result.now ≤ 13) }
{
    match v {
        Verdict::Kept => b"even",
        Verdict::Over => b"heterogeneous",
        Verdict::Undecided => b"open",
    }
}
