// What a sound layout is, in the words of section 2, and that the test for it says just that.
#![tactic(auto)]
