// What is proved of the box as a whole, told from a log: demand 3, that all that shows is what the log tells, the customer's stories, the cases of section 8.
#![tactic(auto)]
