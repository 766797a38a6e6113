// What a record says after a run to a time: a theorem over crates engine and engine_until, no code.

#![tactic(auto)]
