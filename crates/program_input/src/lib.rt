// The sheet that a program reads: as many bytes as decide what it says, whatever follows them.
#![tactic(auto)]

ghost use Rattle.std.specs.Prelude.{◌≡◌, List, ℕ, take};
ghost use Rattle.rules.specs.Reading.{read_of};
ghost use Rattle.program_input.specs.Input.{BeginsWith, IsSheetOf};

// Places for a sheet: what an input has behind them makes no difference to what it is read as.
pub const SHEET: usize = 16384;

// The first `read` bytes of a buffer: they are the first N of every input that begins with them, or all of it. An array, since its length
// says how many bytes were asked for: where fewer came, they are all of the input.
#[tactic(auto, using(crate::proofs::Beginning::front))]
pub fn front<const N: usize>(buffer: &[u8; N], read: usize) -> &[u8]
    ensures { (input : List ℕ) → BeginsWith input buffer.now read → result.now ≡ take N input }
{
    &buffer[..read.min(N)]
}

// Those of a buffer for a sheet, an array for the same reason: they are the sheet of every input that begins with them, and say what it
// says.
#[tactic(auto, using(crate::proofs::Beginning::sheet_says))]
pub fn sheet_of(buffer: &[u8; SHEET], read: usize) -> &[u8]
    ensures sheet { (input : List ℕ) → BeginsWith input buffer.now read → IsSheetOf input result.now }
    ensures says { (input : List ℕ) → BeginsWith input buffer.now read → read_of result.now ≡ read_of input }
{
    front(buffer, read)
}
