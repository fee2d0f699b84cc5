// What holds while a store is built, and how each mark keeps it: specs/ has the invariant, proofs/ the steps. No code.
#![tactic(auto)]
