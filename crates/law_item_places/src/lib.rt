// Where the items of an accepted file come from: proofs/ has the law that each is at the place of a D01 or D03. No code.
#![tactic(auto)]
