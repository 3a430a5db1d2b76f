// The words of a report, and how long its five lines are, so that nothing is written where they do not fit.
#![tactic(auto)]

ghost use Rattle.std.specs.Prelude.{◌≡◌, ◌≤◌, length};
ghost use Rattle.rules.specs.Text.{text, pointed};
ghost use Rattle.rules.specs.Report.{limit_text, value_line, lot_verdict_line, judgement_text, findings_text};

use rules::{Findings, Judgement, Value, Verdict};

pub mod words;

#[tactic(auto, using(rules::proofs::TextLaws::length_pointed_le))]
fn number_size(places: u8, n: u64) -> usize
    ensures { (result ≡ length (pointed places n)) × (result ≤ 300) }
{
    decimal::pointed_width(places, n)
}

#[tactic(auto, unfolding(rules::specs::Report::limit_text))]
fn limit_size(places: u8, limit: Option<u32>) -> usize
    ensures { (result ≡ length (limit_text places limit)) × (result ≤ 300) }
{
    match limit {
        None => words::NONE.len(),
        Some(v) => number_size(places, u64::from(v)),
    }
}

// The line of H or of R, with its name. Inlined, as the writer of that line is.
#[inline(always)]
#[tactic(auto, unfolding(rules::specs::Report::value_line))]
fn value_size(v: Value) -> usize
    ensures { (result ≡ length (value_line (text "H ") v)) × (result ≡ length (value_line (text "R ") v)) × (result ≤ 700) }
{
    let value = number_size(v.places, v.value) + words::mark(v.side).len();
    value + limit_size(v.places, v.limit) + words::verdict(v.verdict).len() + 5
}

// The line of the lot.
#[tactic(auto, unfolding(rules::specs::Report::lot_verdict_line))]
fn lot_size(v: Verdict) -> usize
    ensures { (result ≡ length (lot_verdict_line v)) × (result ≤ 18) }
{
    words::lot(v).len() + 5
}

// The lines of H, of R and of the lot.
#[tactic(auto, unfolding(rules::specs::Report::judgement_text))]
fn judgement_size(judgement: Option<Judgement>) -> usize
    ensures { (result ≡ length (judgement_text judgement)) × (result ≤ 1500) }
{
    match judgement {
        None => words::VOID.len(),
        Some(j) => value_size(j.h) + value_size(j.r) + lot_size(j.lot),
    }
}

// All five.
pub fn size(s: Findings) -> usize
    ensures { result ≡ length (findings_text s) }
{
    let count = number_size(0, u64::from(s.count)) + 3;
    let mean = number_size(s.places, s.mean) + words::mark(s.side).len() + 6;
    count + mean + judgement_size(s.judgement)
}
