// No code: what it means that a contract allows one result only (specs/Unique.antt).

#![tactic(auto)]
