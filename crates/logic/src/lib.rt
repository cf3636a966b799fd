// Definitions and theorems alone: the least model over all depths that exist, which items it joins, interpretations, and locality.
#![tactic(auto)]
