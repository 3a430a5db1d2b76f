// An answer as one number, for a host program. A cast with `as` keeps every bit of what it is given: a `usize` has no `From` to
// or from these numbers.
#![tactic(auto)]

ghost use Rattle.std.specs.Prelude.{◌≡◌, min, MatchResult};
ghost use Rattle.rules.specs.Limits.{widest};
ghost use Rattle.rules.specs.Numbers.{number_of, text_size};
ghost use Rattle.rules.specs.OnSheets.{file_of, line_of};
ghost use Rattle.codes.specs.Codes.{refusal_code, size_code, fault_code, call_code_of};

use rules::{Fault, Refusal, WIDEST};

// What is added to a refusal's number.
pub const REFUSED: u64 = 4294967296;

// The code of a call that gives a number or a test: its value where it is not refused.
pub fn answer_code<T: Into<u64>>(answer: Result<T, Refusal>) -> u64
    ensures { MatchResult answer (λ value. T.converts value result) (λ e. result ≡ refusal_code (number_of e)) }
{
    match answer {
        Ok(value) => value.into(),
        Err(e) => REFUSED + u64::from(e.number()),
    }
}

// The code of a call that writes a text.
#[tactic(auto, using(crate::proofs::CodeLaws::code_laws))]
pub fn size_code(answer: Result<usize, Refusal>) -> u64
    ensures { result ≡ size_code (text_size answer) }
{
    answer_code(answer.map(|length| length as u64))
}

// A refusal with the file and the line of its fault. A line that has more than 16 bits is told as the last that has not.
fn fault_code(fault: Fault) -> u64
    ensures { result ≡ fault_code (number_of fault.refusal) (file_of fault.place) (min (line_of fault.place) widest) }
{
    let line = fault.place.line().min(WIDEST as usize);
    let file = u64::from(fault.place.file());
    REFUSED + u64::from(fault.refusal.number()) + 256 * file + 65536 * line as u64
}

// The code of a call on a sheet.
pub fn call_code(answer: Result<usize, Fault>) -> u64
    ensures { result ≡ call_code_of answer }
{
    match answer {
        Ok(length) => length as u64,
        Err(fault) => fault_code(fault),
    }
}
