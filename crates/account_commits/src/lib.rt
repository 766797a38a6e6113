// No code: what an account charges for the logs that an engine committed, as theorems.

#![tactic(auto)]
