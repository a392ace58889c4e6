// No code: specs/ has the rule of a slice, slices one after the other and what is promised of them, and proofs/ has the proofs. The crates above state these on their calls.
#![tactic(auto)]
