// What a reading keeps: the rules of a file, command by command, in both editions; which is the first broken, and where. No code.
#![tactic(auto)]
