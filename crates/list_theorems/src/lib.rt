// The claims about comma lists written and read back, and about calls on sheets. No code: specs/ states them, and proofs/ has their
// proof.
#![tactic(auto)]
