// What every recognised command keeps: how large its numbers can be, and where its spans lie. No code.
#![tactic(auto)]
