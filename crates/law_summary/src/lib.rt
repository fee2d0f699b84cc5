// The summary of a sheet that a reading left: the rows of the file's own items, whose counts add up to the total. No code.
#![tactic(auto)]
