// The five lines of a report. Each writer of a line gets the rest of the buffer, behind the lines already laid down; inside a line each
// piece gets the place behind the one before. Places and number go one by one, as `decimal` takes them: a struct of both would be taken
// apart for each call, and be no plainer.
#![tactic(auto)]

ghost use Rattle.std.specs.Prelude.{◌≡◌, ◌++◌, Err};
ghost use Rattle.rules.specs.Numbers.{text_answer};
ghost use Rattle.rules.specs.Text.{text, pointed, laid_in};
ghost use Rattle.rules.specs.Report.{mark_text, limit_text, value_line, lot_verdict_line, judgement_text, findings_text};
ghost use Rattle.rules.specs.declared.Refusal.TheVariants.{BufferShort};
ghost use Rattle.decimal.specs.Laying.{LaysAt, LaysLine};

use report_size::words;
use rules::{Findings, Judgement, Refusal, Side, Value, Verdict};

// A limit with its places, or the word none, from at on.
#[tactic(auto, unfolding(rules::specs::Report::limit_text))]
fn limit(buf: &mut [u8], at: usize, places: u8, limit: Option<u32>) -> usize
    ensures { LaysAt (limit_text places limit) at buf.old buf.new result }
{
    match limit {
        None => decimal::bytes(buf, at, words::NONE),
        Some(v) => decimal::pointed(buf, at, places, u64::from(v)),
    }
}

// N 5 and MEAN 98.00=: a name, and a number with its places and its mark.
fn number_line(buf: &mut [u8], name: &[u8], places: u8, n: u64, side: Side) -> usize
    ensures { LaysLine (name.now ++ pointed places n ++ mark_text side ++ text "\n") buf.old buf.new result }
{
    let a = decimal::bytes(buf, 0, name);
    let b = decimal::pointed(buf, a, places, n);
    let c = decimal::bytes(buf, b, words::mark(side));
    decimal::bytes(buf, c, b"\n")
}

// H 1.55+ 1.55 over; R likewise, without a mark. Inlined: a call would need the value in memory, and each function that answers it or a
// struct with it would copy it there once more, with the bytes between its fields.
#[inline(always)]
fn value_line(buf: &mut [u8], name: &[u8], v: Value) -> usize
    ensures { LaysLine (value_line name.now v) buf.old buf.new result }
{
    let a = decimal::bytes(buf, 0, name);
    let b = decimal::pointed(buf, a, v.places, v.value);
    let c = decimal::bytes(buf, b, words::mark(v.side));
    let d = decimal::bytes(buf, c, b" ");
    let e = limit(buf, d, v.places, v.limit);
    let f = decimal::bytes(buf, e, b" ");
    let g = decimal::bytes(buf, f, words::verdict(v.verdict));
    decimal::bytes(buf, g, b"\n")
}

// LOT heterogeneous
fn lot_line(buf: &mut [u8], v: Verdict) -> usize
    ensures { LaysLine (lot_verdict_line v) buf.old buf.new result }
{
    let a = decimal::bytes(buf, 0, b"LOT ");
    let b = decimal::bytes(buf, a, words::lot(v));
    decimal::bytes(buf, b, b"\n")
}

// H, R and the lot.
fn judgement_lines(buf: &mut [u8], judgement: Option<Judgement>) -> usize
    ensures { LaysLine (judgement_text judgement) buf.old buf.new result }
{
    match judgement {
        None => decimal::bytes(buf, 0, words::VOID),
        Some(j) => {
            let a = value_line(buf, b"H ", j.h);
            let b = a + value_line(&mut buf[a..], b"R ", j.r);
            b + lot_line(&mut buf[b..], j.lot)
        }
    }
}

// The five lines; the length of all.
fn lines(buf: &mut [u8], s: Findings) -> usize
    ensures { LaysLine (findings_text s) buf.old buf.new result }
{
    let a = number_line(buf, b"N ", 0, u64::from(s.count), Side::Unrounded);
    let b = a + number_line(&mut buf[a..], b"MEAN ", s.places, s.mean, s.side);
    b + judgement_lines(&mut buf[b..], s.judgement)
}

// The text of findings and its length. Where it does not fit, nothing is written.
#[tactic(auto, using(rules::proofs::TextLaws::short_is, rules::proofs::TextLaws::fits_is))]
pub fn five_lines(buf: &mut [u8], s: Findings) -> Result<usize, Refusal>
    ensures { (text_answer result buf.new ≡ laid_in (findings_text s) buf.old) × ((e : Refusal) → result ≡ Err e → e ≡ BufferShort) }
{
    if buf.len() < report_size::size(s) {
        return Err(Refusal::BufferShort);
    }
    Ok(lines(buf, s))
}
