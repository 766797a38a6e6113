// No code: the edges that the paper marks, as theorems.

#![tactic(auto)]
