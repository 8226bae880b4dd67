// No function: the three demands of the paper as theorems about the exported functions, stated in specs/ and proved in proofs/.

#![tactic(auto)]
