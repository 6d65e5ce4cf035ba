// The definitions of the junction sketch.

#![tactic(auto)]
