// The calendar's ring: which block, slot and leaf a time has, and how many bitmap words a search reads. The code that keeps to them is the calendar's.

#![tactic(auto)]
