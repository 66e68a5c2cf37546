// No code: the bench cases P1 to P12 and those of T-02 and T-03 are in specs/, the fact that all of them hold in proofs/.
#![tactic(auto)]
