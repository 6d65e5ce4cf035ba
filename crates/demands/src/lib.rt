// Nothing here runs. specs/ says in plain statements what is demanded, proofs/ has one theorem for each sentence of the three demands.

#![tactic(auto)]
