// No code: the shapes of loops (specs/) and their laws (proofs/), once, over any element type.

#![tactic(auto)]
