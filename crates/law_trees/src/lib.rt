// An expression as a tree: every text that AM takes for an expression is one tree's, and AD's value of the text is the tree's value. No code.
#![tactic(auto)]
