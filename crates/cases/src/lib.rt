// Definitions and theorems alone: the worked cases of the specification and of the change requests, one table and one theorem.
#![tactic(auto)]
