// The definitions of the network stand in specs/, what is proved of them in proofs/; nothing here runs.

#![tactic(auto)]
