// The calls for a host program in C or Rust. Each is exported under its own name, takes numbers and lent lists, and answers one
// number. host/gelvorin.h says for the host's programmer what each answers.
#![tactic(auto)]

ghost use Rattle.std.specs.Prelude.{◌≡◌};
ghost use Rattle.rules.specs.Numbers.{answer_of};
ghost use Rattle.rules.specs.Weights.{tenths_of, weighed_of};
ghost use Rattle.rules.specs.Sampling.{sampling_of};
ghost use Rattle.rules.specs.Tolerance.{label_of, pair_of};
ghost use Rattle.rules.specs.Mixing.{mixing_of};
ghost use Rattle.rules.specs.Printing.{print_on};
ghost use Rattle.rules.specs.OnSheets.{enter_sheet, withdraw_sheet, enter_list_sheet};
ghost use Rattle.codes.specs.Codes.{answer_code};
ghost use Rattle.host.specs.Coding.{code_and_bytes, text_code, rewrite_on, call_code};

use rules::Pans;

// The number of primary samples for so many containers of so many whole kg each.
#[unsafe(no_mangle)]
#[tactic(auto, using(codes::proofs::CodeLaws::code_laws))]
pub extern "C" fn gelvorin_samples(containers: u32, kilograms: u32) -> u64
    ensures { result ≡ answer_code (sampling_of containers kilograms) }
{
    codes::answer_code(sampling::primary_samples(containers, kilograms))
}

// Whether the number of seeds found is within the tolerance of a label, by Table 14G.
#[unsafe(no_mangle)]
#[tactic(auto, using(codes::proofs::CodeLaws::code_laws))]
pub extern "C" fn gelvorin_label(labelled: u32, found: u32) -> u64
    ensures { result ≡ answer_code (label_of labelled found) }
{
    codes::answer_code(tolerance::label(labelled, found))
}

// Whether the numbers of seeds found by two tests are within the tolerance of each other, by Table 14H.
#[unsafe(no_mangle)]
#[tactic(auto, using(codes::proofs::CodeLaws::code_laws))]
pub extern "C" fn gelvorin_pair(first: u32, second: u32) -> u64
    ensures { result ≡ answer_code (pair_of first second) }
{
    codes::answer_code(tolerance::pair(first, second))
}

// Whether component lots with these results may be mixed.
#[unsafe(no_mangle)]
#[tactic(auto, using(codes::proofs::CodeLaws::code_laws))]
pub extern "C" fn gelvorin_mixing(results: &[u32], tolerated: u32) -> u64
    ensures { result ≡ answer_code (mixing_of results.now tolerated) }
{
    codes::answer_code(mixing::mixable(results, tolerated))
}

// The weight that 32 float bits mean, a number of grams, in tenths of a milligram.
#[unsafe(no_mangle)]
#[tactic(auto, using(codes::proofs::CodeLaws::code_laws, rules::proofs::WeightLaws::bits_back))]
pub extern "C" fn gelvorin_tenths(bits: u32) -> u64
    ensures { result ≡ answer_code (answer_of (tenths_of bits)) }
{
    codes::answer_code(weights::tenths(weights::float(bits)))
}

// X of a sample that was weighed: the balance's status, and the float bits of component and remainder, as numbers, since C calls it.
#[unsafe(no_mangle)]
#[tactic(auto, using(codes::proofs::CodeLaws::code_laws, rules::proofs::WeightLaws::weighed_back))]
pub extern "C" fn gelvorin_weighed(status: u32, component: u32, remainder: u32) -> u64
    ensures { result ≡ answer_code (answer_of (weighed_of status component remainder)) }
{
    let pans = Pans {
        component: weights::float(component),
        remainder: weights::float(remainder),
    };
    codes::answer_code(weights::weighed(status, pans))
}

// Judges a sheet: the text that lotreport prints for it.
#[unsafe(no_mangle)]
pub extern "C" fn gelvorin_judge(sheet: &[u8], buf: &mut [u8]) -> u64
    ensures { code_and_bytes result buf.new ≡ text_code (print_on sheet.now buf.old) }
{
    codes::size_code(judge::judge(sheet, buf))
}

// Reads a sheet and writes it back: the frames in their order, the results in ascending container order.
#[unsafe(no_mangle)]
#[tactic(auto, using(codes::proofs::CodeLaws::code_laws))]
pub extern "C" fn gelvorin_rewrite(sheet: &[u8], buf: &mut [u8]) -> u64
    ensures { code_and_bytes result buf.new ≡ rewrite_on sheet.now buf.old }
{
    match sheet::read(sheet) {
        Ok(reading) => codes::size_code(writer::write(reading.tally, buf)),
        Err(fault) => codes::size_code(Err(fault.refusal)),
    }
}

// Enters a result for a container, and writes the sheet after it.
#[unsafe(no_mangle)]
#[tactic(auto, using(crate::proofs::CallLaws::call_code_lem, crate::proofs::FewLines::enter_few))]
pub extern "C" fn gelvorin_enter(sheet: &[u8], container: u32, x: u32, buf: &mut [u8]) -> u64
    ensures { code_and_bytes result buf.new ≡ call_code (enter_sheet sheet.now container x buf.old) }
{
    codes::call_code(sheet_calls::enter(sheet, container, x, buf))
}

// Withdraws the result of a container, and writes the sheet after it.
#[unsafe(no_mangle)]
#[tactic(auto, using(crate::proofs::CallLaws::call_code_lem, crate::proofs::FewLines::withdraw_few))]
pub extern "C" fn gelvorin_withdraw(sheet: &[u8], container: u32, buf: &mut [u8]) -> u64
    ensures { code_and_bytes result buf.new ≡ call_code (withdraw_sheet sheet.now container buf.old) }
{
    codes::call_code(sheet_calls::withdraw(sheet, container, buf))
}

// Enters the results of a comma list, and writes the sheet after it.
#[unsafe(no_mangle)]
#[tactic(auto, using(crate::proofs::CallLaws::call_code_lem, crate::proofs::FewLines::list_lines_few))]
pub extern "C" fn gelvorin_enter_list(sheet: &[u8], list: &[u8], buf: &mut [u8]) -> u64
    ensures { code_and_bytes result buf.new ≡ call_code (enter_list_sheet sheet.now list.now buf.old) }
{
    codes::call_code(sheet_calls::enter_list(sheet, list, buf))
}
