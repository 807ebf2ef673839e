// ROM reads on a board as it was opened, one or a history of them: definitions and theorems only, no code.
#![tactic(auto)]
