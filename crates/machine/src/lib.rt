// A machine with replies, and a part of it that is independent of the rest: definitions and theorems only, no code.
#![tactic(auto)]
