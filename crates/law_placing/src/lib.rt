// Placements, and that placing inside a placed block is the placing of the joined placement: specs/ has joining, identity and inverse, proofs/ their laws. No code.
#![tactic(auto)]
