// Definitions and theorems alone: what marks and rules decide, and how it is read off the tables.
#![tactic(auto)]
