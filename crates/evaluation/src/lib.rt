// A quicker way to work out what lotreport, lotlist and lotenter print for given bytes, shown equal to the definition. No code: specs/
// has the quicker way, and proofs/ the proof.
#![tactic(auto)]
