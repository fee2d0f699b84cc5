// Where a shape comes from: of a store that a reading left, what a lookup answers is what AD's rules worked out of the file, primitive by primitive. No code.
#![tactic(auto)]
