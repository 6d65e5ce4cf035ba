// The definitions of the loops.

#![tactic(auto)]
