// The worked cases of document 01, proved from the definitions: specs/ has the tables, proofs/ their statements. No code.
#![tactic(auto)]
