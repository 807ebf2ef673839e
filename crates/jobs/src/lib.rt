// ROM reads by jobs, each with a count of its own, and histories of them: definitions and theorems only, no code.
#![tactic(auto)]
