// No code: the definitions of clauses, formulas and tables are in specs/, their theorems in proofs/.
#![tactic(auto)]
