// Theorems on layout files alone; there is no code here.
#![tactic(auto)]
