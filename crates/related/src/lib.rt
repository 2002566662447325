// Theorems about the rules on whole sheets, most of which compare two: specs/ and proofs/. There is no code.
#![tactic(auto)]
