// An image cut short, from its opening to its ROM reads (demand 3): definitions and theorems only, no code.
#![tactic(auto)]
