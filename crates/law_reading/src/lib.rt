// The reading of a file as document 01 defines it: commands in file order, each by its rules, its marks one after the other. No code.
#![tactic(auto)]
