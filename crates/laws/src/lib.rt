// Nothing here runs. specs/ has the tests, scans and sums that every room's definitions use, proofs/ the laws about them.

#![tactic(auto)]
