// Definitions and theorems alone: what a shift of all depths, and the reversed line, do to what is held and to every answer.
#![tactic(auto)]
