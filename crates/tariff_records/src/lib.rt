// No code: what the collector's record says of a star line, and its tariff, as theorems.

#![tactic(auto)]
