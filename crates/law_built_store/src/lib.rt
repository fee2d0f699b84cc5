// The store that `build` leaves shows the marks that were put: proofs/ has a law for each mark, and the theorem of the end. No code.
#![tactic(auto)]
