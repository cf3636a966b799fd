// What is claimed of the calls: definitions and theorems alone, in specs/. The calls' code and contracts stand below, in `service`.
#![tactic(auto)]
