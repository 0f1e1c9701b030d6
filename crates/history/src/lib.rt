// The history theorem. It has no code: the ledger, the histories and the claim are in specs/, the proof in proofs/.
#![tactic(auto)]
