// What each edit does: definitions, and theorems about them. No code.
#![tactic(auto)]
