// Our own histories as logs (02 §10). It has no code: the log of a history is defined in specs/, and that it is clean is proved in proofs/.
#![tactic(auto)]
