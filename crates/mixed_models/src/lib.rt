// Models as numbers and the theory of the mixed rank: definitions and theorems alone, in specs/.
#![tactic(auto)]
