// What the bench prints is a matter of the plan and the command lines alone.

#![tactic(auto)]
