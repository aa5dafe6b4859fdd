// How a column depends on others modulo a prime: definitions and theorems alone, in specs/.
#![tactic(auto)]
