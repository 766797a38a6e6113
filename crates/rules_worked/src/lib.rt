// Worked lists of calls: the rules' answers to them, computed, are those that document 01 prints and those of an independent program.

#![tactic(auto)]
