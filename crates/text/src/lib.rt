// Numbers as text: decimal digits, and numbers after a word. Reading them is crate text_reading, writing them text_writing.

#![tactic(auto)]
