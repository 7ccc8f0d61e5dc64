// What one step keeps and what a run from the cold start never meets: codes in range, refusals that change nothing, no 18; and what an accepted event does.
#![tactic(auto)]
