// No function: the paper's measured pieces, as one table in specs/ and one theorem in proofs/.

#![tactic(auto)]
