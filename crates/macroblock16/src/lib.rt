// A macroblock predicted whole: the content of its record tested, its samples rebuilt, and the candidate of the coder (02, Req 01).

#![tactic(auto)]

pub mod inner;
