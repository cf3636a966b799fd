// Definitions and theorems alone: the charge of an item by price lines, from what is held.
#![tactic(auto)]
