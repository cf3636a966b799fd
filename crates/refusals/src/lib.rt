// Definitions and theorems alone: the order of refusals, and what the tests of a call come to.
#![tactic(auto)]
