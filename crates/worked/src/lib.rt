// Nothing here runs. specs/ has document 01's worked network, proofs/ what document 01 says of it, by computation.

#![tactic(auto)]
