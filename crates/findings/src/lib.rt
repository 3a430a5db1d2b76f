// The findings of a report: what its five lines say. A cast with `as` keeps every bit of what it is given, as the proof shows; `try_from`
// would be no plainer, since it needs a value for the case that cannot be.
#![tactic(auto, using(rules::proofs::Capacity::capacity))]

ghost use Rattle.std.specs.Prelude.{◌≡◌, ◌*◌, ◌≤◌, length, false};
ghost use Rattle.rules.specs.Limits.{highest_x};
ghost use Rattle.rules.specs.Attributes.{is_void};
ghost use Rattle.rules.specs.Figures.{figures_of, mean_of, less_whole};
ghost use Rattle.rules.specs.Report.{judgement_of, findings_of};
ghost use Rattle.rounding.specs.Dividing.{Workable};
ghost use Rattle.findings.specs.Values.{h_against, r_against};
ghost use Rattle.held_lists.specs.Places.{in_order};
ghost use Rattle.findings.specs.Reportable.{with_sums, found_of, Served, IsReportable};

use rules::{
    Attribute, Card, Figures, Findings, Fraction, Judgement, MOST_HELD, Rounded, Side, Value,
};

mod figures;
mod values;

// The mean in units of its last printed place, half up, with its side.
#[tactic(auto, using(crate::proofs::ValueLaws::mean_laws), unfolding(rules::specs::Figures::mean_of))]
fn mean(a: Attribute, f: Figures) -> Rounded
    requires { Served f }
    ensures { (result ≡ mean_of a f) × (result.nearest ≤ 100 * highest_x) }
{
    let scale = a.mean_scale(f.count);
    let d = rounding::divide(u64::from(scale), u64::from(f.sum), u64::from(f.count));
    d.rounded
}

// A rounded number less a whole one. Where that is below zero, it is 0 and the exact number smaller.
fn less(r: Rounded, whole: u64) -> Rounded
    ensures { result ≡ less_whole r whole }
{
    Rounded {
        nearest: r.nearest.saturating_sub(whole),
        side: if r.nearest < whole {
            Side::Smaller
        } else {
            r.side
        },
    }
}

// H from V/W, G and the critical value.
fn h_value(q: Fraction, offset: u16, critical: Option<u32>) -> Value
    requires { Workable 100 q.over q.under }
    ensures { result ≡ h_against q offset critical }
{
    let d = rounding::divide(100, q.over, q.under);
    let h = less(d.rounded, 10 * u64::from(offset));
    Value {
        places: 2,
        value: h.nearest,
        side: h.side,
        limit: critical,
        verdict: verdicts::verdict_of_h(d, offset, critical),
    }
}

// R with the tolerated range.
fn r_value(a: Attribute, f: Figures, tolerated: Option<u32>) -> Value
    requires { f.smallest ≤ f.largest }
    ensures { result ≡ r_against a f tolerated }
{
    let range = f.largest - f.smallest;
    Value {
        places: a.places() as u8,
        value: u64::from(range),
        side: Side::Unrounded,
        limit: tolerated,
        verdict: verdicts::verdict_of_r(range, tolerated),
    }
}

// H, R and the lot's verdict, where the mean is within the attribute's limits. The row goes by the mean that is printed.
#[tactic(auto, using(crate::proofs::ValueLaws::h_workable, rules::proofs::Capacity::capacity))]
fn judgement(a: Attribute, c: Card, f: Figures, printed: u32) -> Judgement
    requires reportable { IsReportable c f }
    requires printed { printed ≡ (mean_of a f).nearest }
    requires within { is_void a f.count f.sum ≡ false }
    ensures { result ≡ judgement_of a c f }
{
    let scale = a.mean_scale(f.count);
    // Read out of the card itself, the one value would have the whole card copied.
    let criticals = c.critical;
    let critical = verdicts::critical_at(criticals[usize::from(f.count)]);
    let tolerated = verdicts::tolerated_for(c, f.count, printed, scale);
    let h = h_value(values::ratio(a, c.head, f), c.head.offset, critical);
    let r = r_value(a, f, tolerated);
    Judgement {
        h,
        r,
        lot: verdicts::together(h.verdict, r.verdict),
    }
}

// The findings from attribute, card and figures. Whether the lot is void goes by the exact mean, f.sum / f.count.
#[tactic(auto, unfolding(rules::specs::Report::findings_of))]
fn of_figures(a: Attribute, c: Card, f: Figures) -> Findings
    requires { IsReportable c f }
    ensures { result ≡ findings_of a c f }
{
    let mean = mean(a, f);
    let printed = mean.nearest as u32;
    let judgement = if a.is_void(f.count, f.sum) {
        None
    } else {
        Some(judgement(a, c, f, printed))
    };
    Findings {
        count: f.count,
        places: a.mean_places(f.count) as u8,
        mean: mean.nearest,
        side: mean.side,
        judgement,
    }
}

// The findings from attribute, card, results and the sums that are kept of them. None: too few or too many results, sums past what so
// many results have, or a card that no open accepts.
pub fn of_lot(a: Attribute, c: Card, results: &[u16], sum: u32, squares: u64) -> Option<Findings>
    ensures { result ≡ found_of a c (with_sums sum squares (figures_of (length results.now) (in_order results.now))) }
{
    if MOST_HELD < results.len() {
        return None;
    }
    let f = figures::figures_of(results, sum, squares);
    if figures::are_within_limits(f, c.head, c.rows) {
        Some(of_figures(a, c, f))
    } else {
        None
    }
}
