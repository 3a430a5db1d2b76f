// A refusal as a fault; and the file and the line where a fault of a call on a sheet stands, as they are printed: the sheet is file 1,
// the list file 2.
ghost use Rattle.std.specs.Prelude.{◌≡◌};
ghost use Rattle.rules.specs.OnSheets.{in_call, file_of, line_of};

use crate::{Fault, Place, Refusal};

// A refusal of the call itself stands in no line.
impl From<Refusal> for Fault {
    ghost from_gives = { λ refusal fault. fault ≡ in_call refusal };

    fn from(refusal: Refusal) -> Fault {
        Fault {
            refusal,
            place: Place::Call,
        }
    }
}

impl Place {
    pub fn file(self) -> u32
        ensures { result ≡ file_of self }
    {
        match self {
            Place::Call => 0,
            Place::Sheet(_) => 1,
            Place::List(_) => 2,
        }
    }

    pub fn line(self) -> usize
        ensures { result ≡ line_of self }
    {
        match self {
            Place::Call => 0,
            Place::Sheet(line) => line,
            Place::List(line) => line,
        }
    }
}
