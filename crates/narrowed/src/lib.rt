// A container and a result of 32 bits, handed on to the calls on a tally, which take 16. What is handed on is answered as the number
// itself is (proofs/Answered.antt). Two calls, each with the number that its promise needs: one with a const parameter would be no plainer.
#![tactic(auto)]

ghost use Rattle.std.specs.Prelude.{◌≡◌};
ghost use Rattle.narrowed.specs.Narrowed.{kept_container, kept_x};

// No lot has container 0, as none has one above 65535.
pub fn container(k: u32) -> u16
    ensures { result ≡ kept_container k }
{
    u16::try_from(k).unwrap_or(0)
}

// 65535 is too high, as every result above it is.
pub fn result(x: u32) -> u16
    ensures { result ≡ kept_x x }
{
    u16::try_from(x).unwrap_or(u16::MAX)
}
