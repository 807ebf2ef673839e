// Read programs: definitions and laws only, no code.
#![tactic(auto)]
