// What may stand next in a sheet, and whether it may end.
#![tactic(auto)]

ghost use Rattle.std.specs.Prelude.{◌≡◌};
ghost use Rattle.rules.specs.Stages.{is_of_results, may_stand, is_ended};

use rules::Stage;

// A result, weighed or not, or the end. The kind is any number, as below.
fn of_results(kind: u16) -> bool
    ensures { result ≡ is_of_results kind }
{
    matches!(kind, 5 | 6 | 7)
}

// Whether a frame of this kind may stand next. `kind` is any number, as in the definition: an enum of the kinds would stand beside it with
// a conversion of its own, and be no plainer than the numbers of the document; and a narrower type would ask more of callers.
pub fn takes(stage: Stage, kind: u16) -> bool
    ensures { result ≡ may_stand kind stage }
{
    match stage {
        Stage::Start => kind == 1,
        Stage::Lot => kind == 2,
        Stage::Card | Stage::Critical => kind == 3 || kind == 4 || of_results(kind),
        Stage::Range => kind == 4 || of_results(kind),
        Stage::Result => of_results(kind),
        Stage::End => false,
    }
}

// Whether the sheet may end here: 06 was read.
pub fn is_ended(stage: Stage) -> bool
    ensures { result ≡ is_ended stage }
{
    stage == Stage::End
}
