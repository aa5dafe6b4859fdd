// The theory of the layered rank: definitions and theorems alone, in specs/.
#![tactic(auto)]
