// Tests that the prover computes: what holds at each number below a bound. It has proofs alone (proofs/Everywhere.antt).

#![tactic(auto)]
