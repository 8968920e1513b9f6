// Worked examples. No code.
#![tactic(auto)]
