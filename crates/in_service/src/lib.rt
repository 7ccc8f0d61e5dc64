// Theorems only: demand 3, exactness and the customer's stories for every call that a controller can make and for every file that a user can give.
#![tactic(auto)]
