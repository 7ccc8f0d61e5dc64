// Theorems only: there is a way out of every state that a run reaches, and from there every route can be set, its signal at proceed.
#![tactic(auto)]
